//! The fields of a time that a text has.

/// The fields that a text has, each where an item of the format says it (XBD time.h, struct tm).
#[derive(Clone, Copy, PartialEq, Eq)]
pub struct Parsed {
    /// From 0 to 9999.
    pub year: Option<i32>,
    /// From 1 to 12.
    pub mon: Option<u8>,
    /// From 1 to 31.
    pub mday: Option<u8>,
    /// From 0 to 23.
    pub hour: Option<u8>,
    /// From 0 to 59.
    pub min: Option<u8>,
    /// From 0 to 60.
    pub sec: Option<u8>,
    /// From 0, which is Sunday, to 6.
    pub wday: Option<u8>,
    /// From 0 to 365.
    pub yday: Option<u16>,
}
