//! What the items that were read say.

ghost use Rattle.std.specs.Prelude.{◌≡◌};
ghost use Rattle.strptime_fields.specs.Keeping.{nothing};

use crate::item::Kind;

/// The last value of each kind that was read.
#[derive(Clone, Copy)]
pub struct LastRead {
    pub year: Option<u16>,
    pub century: Option<u8>,
    pub year_of_century: Option<u8>,
    pub mon: Option<u8>,
    pub mday: Option<u8>,
    pub hour: Option<u8>,
    pub half_day_hour: Option<u8>,
    pub half_day: Option<u8>,
    pub min: Option<u8>,
    pub sec: Option<u8>,
    pub wday: Option<u8>,
    pub year_day: Option<u16>,
}

impl LastRead {
    ghost use Rattle.std.specs.Prelude.{◌≡◌, Some};
    ghost use Rattle.strptime_fields.specs.Keeping.{nothing, keep};

    /// Nothing was read yet.
    pub fn nothing() -> LastRead
        ensures { result ≡ nothing }
    {
        LastRead {
            year: None,
            century: None,
            year_of_century: None,
            mon: None,
            mday: None,
            hour: None,
            half_day_hour: None,
            half_day: None,
            min: None,
            sec: None,
            wday: None,
            year_day: None,
        }
    }

    /// What was read, and now a value of a kind, in the place of an earlier one.
    pub fn with(mut self, kind: Kind, value: u8) -> LastRead
        ensures { result ≡ keep kind value self }
    {
        match kind {
            Kind::Day => self.mday = Some(value),
            Kind::Month => self.mon = Some(value),
            Kind::Weekday => self.wday = Some(value),
            Kind::Hour => self.hour = Some(value),
            Kind::HalfDayHour => self.half_day_hour = Some(value),
            Kind::Minute => self.min = Some(value),
            Kind::Second => self.sec = Some(value),
            Kind::Century => self.century = Some(value),
            Kind::YearOfCentury => self.year_of_century = Some(value),
            Kind::HalfDay => self.half_day = Some(value),
            Kind::Week => {}
        }
        self
    }

    /// What was read, and now a day of the year.
    pub fn with_year_day(mut self, day: u16) -> LastRead
        ensures { result ≡ record self { year_day = Some day } }
    {
        self.year_day = Some(day);
        self
    }

    /// What was read, and now a year.
    pub fn with_year(mut self, year: u16) -> LastRead
        ensures { result ≡ record self { year = Some year } }
    {
        self.year = Some(year);
        self
    }
}
