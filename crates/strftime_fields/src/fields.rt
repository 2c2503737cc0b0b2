//! A time whose zone is lent.

ghost use Rattle.std.specs.Prelude.{◌≡◌, ◌≤◌};
ghost use Rattle.time_cat.specs.Times.{IsOffset};
ghost use Rattle.strftime_fields.specs.Zones.{in_zone};

use std::marker::Model;
use time_cat::Tm;

/// The fields of a time, with a name of its zone.
#[derive(Drop)]
pub struct TimeFields<'a> {
    tm: &'a Tm,
    zone: &'a [u8],
}

impl<'a> Model for TimeFields<'a> {
    ghost use Rattle.time_cat.specs.Times.{TmValues};
    ghost use Rattle.strftime_fields.specs.Zones.{in_zone};

    ghost Value = { TmValues };

    ghost view = { λ f. in_zone f.tm.now f.zone.now };
}

impl<'a> TimeFields<'a> {
    /// A time with its own zone.
    #[inline(always)]
    pub fn of(tm: &'a Tm) -> TimeFields<'a>
        ensures { result ≡ tm.now }
    {
        TimeFields {
            tm,
            zone: tm.zone(),
        }
    }

    /// A time with another zone.
    #[inline(always)]
    pub fn in_zone(tm: &'a Tm, zone: &'a [u8]) -> TimeFields<'a>
        ensures { result ≡ in_zone tm.now zone.now }
    {
        TimeFields { tm, zone }
    }

    /// The time once more: a loop over one of its own keeps it in registers.
    #[inline(always)]
    pub fn here(&self) -> TimeFields<'a>
        ensures { result ≡ self.now }
    {
        TimeFields {
            tm: self.tm,
            zone: self.zone,
        }
    }

    /// The year, from 1 to 9999.
    #[inline(always)]
    pub fn year(&self) -> u32
        ensures is { result ≡ self.now.year }
        ensures from { 1 ≤ result }
        ensures to { result ≤ 9999 }
    {
        self.tm.year()
    }

    /// The month, from 1 to 12.
    #[inline(always)]
    pub fn mon(&self) -> u32
        ensures is { result ≡ self.now.mon }
        ensures from { 1 ≤ result }
        ensures to { result ≤ 12 }
    {
        self.tm.mon()
    }

    /// The day of the month, from 1 to 31.
    #[inline(always)]
    pub fn mday(&self) -> u32
        ensures is { result ≡ self.now.mday }
        ensures from { 1 ≤ result }
        ensures to { result ≤ 31 }
    {
        self.tm.mday()
    }

    /// The hour, from 0 to 23.
    #[inline(always)]
    pub fn hour(&self) -> u32
        ensures is { result ≡ self.now.hour }
        ensures to { result ≤ 23 }
    {
        self.tm.hour()
    }

    /// The minute, from 0 to 59.
    #[inline(always)]
    pub fn min(&self) -> u32
        ensures is { result ≡ self.now.min }
        ensures to { result ≤ 59 }
    {
        self.tm.min()
    }

    /// The second, from 0 to 60.
    #[inline(always)]
    pub fn sec(&self) -> u32
        ensures is { result ≡ self.now.sec }
        ensures to { result ≤ 60 }
    {
        self.tm.sec()
    }

    /// The day of the week, from 0 on Sunday to 6.
    #[inline(always)]
    pub fn wday(&self) -> u32
        ensures is { result ≡ self.now.wday }
        ensures to { result ≤ 6 }
    {
        self.tm.wday()
    }

    /// The day of the year, from 0 to 365.
    #[inline(always)]
    pub fn yday(&self) -> u32
        ensures is { result ≡ self.now.yday }
        ensures to { result ≤ 365 }
    {
        self.tm.yday()
    }

    /// The minutes east of UTC, from -1439 to 1439, where they are known.
    #[inline(always)]
    pub fn offset(&self) -> Option<i32>
        ensures is { result ≡ self.now.offset }
        ensures near { IsOffset result }
    {
        self.tm.offset()
    }

    /// The name of the time zone.
    #[inline(always)]
    pub fn zone(&self) -> &[u8]
        ensures { result.now ≡ self.now.zone }
    {
        self.zone
    }
}
