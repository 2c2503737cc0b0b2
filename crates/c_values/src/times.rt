//! Broken-down times as C gives them.

ghost use Rattle.std.specs.Prelude.{◌≡◌};
ghost use Rattle.c_values.specs.Answers.{offset_of, tm_given, field_number};

use lc_base::ByteText;
use std::alloc::Global;
use strftime_fields::{Tm, TmField, TmRange};

/// A broken-down time. C has `lobj_tm` for it.
#[repr(C)]
#[derive(Clone, Copy)]
pub struct LobjTm {
    /// From 1 to 9999.
    pub year: i32,
    /// From 1 to 12.
    pub mon: i32,
    /// From 1 to 31.
    pub mday: i32,
    /// From 0 to 23.
    pub hour: i32,
    /// From 0 to 59.
    pub min: i32,
    /// From 0 to 60.
    pub sec: i32,
    /// From 0, which is Sunday, to 6.
    pub wday: i32,
    /// From 0 to 365.
    pub yday: i32,
    /// Whether the offset is known.
    pub has_offset: bool,
    /// Minutes east of UTC, from -1439 to 1439.
    pub offset: i32,
}

/// The offset, where it is known.
fn offset_of(tm: &LobjTm) -> Option<i32>
    ensures { result ≡ offset_of tm.now }
{
    if tm.has_offset { Some(tm.offset) } else { None }
}

/// The time, without the name of a zone, or its first field out of its range. Takes no memory.
pub fn tm_given(alloc: Global, tm: &LobjTm) -> Result<Tm, TmRange>
    ensures { result ≡ tm_given tm.now }
{
    Tm::new(
        tm.year,
        tm.mon,
        tm.mday,
        tm.hour,
        tm.min,
        tm.sec,
        tm.wday,
        tm.yday,
        offset_of(tm),
        ByteText::from_vec(Vec::new(alloc)),
    )
}

/// The number of a field, in the order of the fields of `lobj_tm` and the offset last, from 1.
pub fn field_number(field: TmField) -> usize
    ensures { result ≡ field_number field }
{
    match field {
        TmField::Year => 1,
        TmField::Mon => 2,
        TmField::Mday => 3,
        TmField::Hour => 4,
        TmField::Min => 5,
        TmField::Sec => 6,
        TmField::Wday => 7,
        TmField::Yday => 8,
        TmField::Offset => 9,
    }
}
