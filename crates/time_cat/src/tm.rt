//! Broken-down times (XBD time.h, struct tm).

ghost use Rattle.std.specs.Prelude.{◌≡◌, ◌≤◌, ◌^◌, IfOk, unsigned_abs};
ghost use Rattle.time_cat.specs.Times.{TmValues, IsTime, time_of, in_range, offset_in_range, IsOffset};

use lc_base::ByteText;
use std::marker::Model;

/// A field of a time.
#[derive(Clone, Copy, PartialEq, Eq)]
pub enum TmField {
    /// From 1 to 9999.
    Year,
    /// From 1 to 12.
    Mon,
    /// From 1 to 31.
    Mday,
    /// From 0 to 23.
    Hour,
    /// From 0 to 59.
    Min,
    /// From 0 to 60.
    Sec,
    /// From 0, which is Sunday, to 6.
    Wday,
    /// From 0 to 365.
    Yday,
    /// From -1439 to 1439.
    Offset,
}

/// The first field of a time that is out of its range.
#[derive(Clone, Copy)]
pub struct TmRange {
    pub field: TmField,
}

/// A time, each field in its range. The day of the week and that of the year are as given, whatever
/// the date is.
pub struct Tm {
    year: u32,
    mon: u32,
    mday: u32,
    hour: u32,
    min: u32,
    sec: u32,
    wday: u32,
    yday: u32,
    offset: Option<i32>,
    zone: ByteText,
}

impl Drop for Tm {
    fn drop(self) {
        let Tm {
            year: _,
            mon: _,
            mday: _,
            hour: _,
            min: _,
            sec: _,
            wday: _,
            yday: _,
            offset: _,
            zone: _,
        } = self;
    }
}

impl Model for Tm {
    ghost use Rattle.time_cat.specs.Times.{TmValues, IsTime};

    ghost Value = { TmValues };

    ghost use Rattle.time_cat.specs.Fields.{tm_values};

    ghost view = { tm_values };

    ghost invariant = { λ t. IsTime (tm_values t) };
}

/// A field in its range.
fn in_range(field: TmField, low: u32, high: u32, value: i32) -> Result<u32, TmRange>
    ensures is { result ≡ in_range field low high value }
    ensures from { IfOk result (λ n. low ≤ n) }
    ensures to { IfOk result (λ n. n ≤ high) }
    ensures same { IfOk result (λ n. n ≡ unsigned_abs value) }
{
    if value < 0 {
        return Err(TmRange { field });
    }
    let value = value as u32;
    if low <= value && value <= high {
        Ok(value)
    } else {
        Err(TmRange { field })
    }
}

/// An offset of less than a day either way.
fn offset_in_range(offset: Option<i32>) -> Result<Option<i32>, TmRange>
    ensures is { result ≡ offset_in_range offset }
    ensures near { IfOk result IsOffset }
    ensures same { IfOk result (λ o. o ≡ offset) }
{
    match offset {
        None => Ok(None),
        Some(minutes) if -1439 <= minutes && minutes <= 1439 => Ok(Some(minutes)),
        Some(_) => Err(TmRange {
            field: TmField::Offset,
        }),
    }
}

impl Tm {
    /// The time with these fields, or the first field that is out of its range.
    ///
    /// `offset` is in minutes east of UTC, and `zone` the name of the time zone.
    #[tactic(auto, unfolding(crate::specs::Times::time_of))]
    pub fn new(
        year: i32,
        mon: i32,
        mday: i32,
        hour: i32,
        min: i32,
        sec: i32,
        wday: i32,
        yday: i32,
        offset: Option<i32>,
        zone: ByteText,
    ) -> Result<Tm, TmRange>
        ensures { result ≡ time_of year mon mday hour min sec wday yday offset zone }
    {
        let year = in_range(TmField::Year, 1, 9999, year)?;
        let mon = in_range(TmField::Mon, 1, 12, mon)?;
        let mday = in_range(TmField::Mday, 1, 31, mday)?;
        let hour = in_range(TmField::Hour, 0, 23, hour)?;
        let min = in_range(TmField::Min, 0, 59, min)?;
        let sec = in_range(TmField::Sec, 0, 60, sec)?;
        let wday = in_range(TmField::Wday, 0, 6, wday)?;
        let yday = in_range(TmField::Yday, 0, 365, yday)?;
        let offset = offset_in_range(offset)?;
        Ok(Tm {
            year,
            mon,
            mday,
            hour,
            min,
            sec,
            wday,
            yday,
            offset,
            zone,
        })
    }

    /// The year, from 1 to 9999.
    pub fn year(&self) -> u32
        ensures is { result ≡ self.now.year }
        ensures from { 1 ≤ result }
        ensures to { result ≤ 9999 }
    {
        self.year
    }

    /// The month, from 1 to 12.
    pub fn mon(&self) -> u32
        ensures is { result ≡ self.now.mon }
        ensures from { 1 ≤ result }
        ensures to { result ≤ 12 }
    {
        self.mon
    }

    /// The day of the month, from 1 to 31.
    pub fn mday(&self) -> u32
        ensures is { result ≡ self.now.mday }
        ensures from { 1 ≤ result }
        ensures to { result ≤ 31 }
    {
        self.mday
    }

    /// The hour, from 0 to 23.
    pub fn hour(&self) -> u32
        ensures is { result ≡ self.now.hour }
        ensures to { result ≤ 23 }
    {
        self.hour
    }

    /// The minute, from 0 to 59.
    pub fn min(&self) -> u32
        ensures is { result ≡ self.now.min }
        ensures to { result ≤ 59 }
    {
        self.min
    }

    /// The second, from 0 to 60.
    pub fn sec(&self) -> u32
        ensures is { result ≡ self.now.sec }
        ensures to { result ≤ 60 }
    {
        self.sec
    }

    /// The day of the week, from 0 on Sunday to 6.
    pub fn wday(&self) -> u32
        ensures is { result ≡ self.now.wday }
        ensures to { result ≤ 6 }
    {
        self.wday
    }

    /// The day of the year, from 0 to 365.
    pub fn yday(&self) -> u32
        ensures is { result ≡ self.now.yday }
        ensures to { result ≤ 365 }
    {
        self.yday
    }

    /// The minutes east of UTC, from -1439 to 1439, where they are known.
    pub fn offset(&self) -> Option<i32>
        ensures is { result ≡ self.now.offset }
        ensures near { IsOffset result }
    {
        self.offset
    }

    /// The name of the time zone.
    pub fn zone(&self) -> &[u8]
        ensures { result.now ≡ self.now.zone }
    {
        self.zone.as_bytes()
    }
}
