//! Items of a locale.

/// What a program asks of a locale by nl_langinfo (XSH nl_langinfo), in the order of the table of
/// XBD <langinfo.h>.
#[derive(Clone, Copy, PartialEq, Eq)]
pub enum Item {
    /// `CODESET`: the name of the coded character set.
    Codeset,
    /// `D_T_FMT`: the format of a date and time.
    DTFmt,
    /// `D_FMT`: the format of a date.
    DFmt,
    /// `T_FMT`: the format of a time.
    TFmt,
    /// `T_FMT_AMPM`: the format of a time of 12 hours.
    TFmtAmpm,
    /// `AM_STR`: what stands for the time before noon.
    AmStr,
    /// `PM_STR`: what stands for the time from noon on.
    PmStr,
    /// `DAY_1` and on: the names of the days of the week, from Sunday.
    Day1,
    Day2,
    Day3,
    Day4,
    Day5,
    Day6,
    Day7,
    /// `ABDAY_1` and on: their short names.
    Abday1,
    Abday2,
    Abday3,
    Abday4,
    Abday5,
    Abday6,
    Abday7,
    /// `MON_1` and on: the names of the months, from January.
    Mon1,
    Mon2,
    Mon3,
    Mon4,
    Mon5,
    Mon6,
    Mon7,
    Mon8,
    Mon9,
    Mon10,
    Mon11,
    Mon12,
    /// `ABMON_1` and on: their short names.
    Abmon1,
    Abmon2,
    Abmon3,
    Abmon4,
    Abmon5,
    Abmon6,
    Abmon7,
    Abmon8,
    Abmon9,
    Abmon10,
    Abmon11,
    Abmon12,
    /// `ERA`: the segments of eras.
    Era,
    /// `ERA_D_FMT`: the format of a date in its era.
    EraDFmt,
    /// `ERA_D_T_FMT`: the format of a date and time in its era.
    EraDTFmt,
    /// `ERA_T_FMT`: the format of a time in its era.
    EraTFmt,
    /// `ALT_DIGITS`: the alternative digits.
    AltDigits,
    /// `RADIXCHAR`: the radix character.
    Radixchar,
    /// `THOUSEP`: the separator of groups of digits.
    Thousep,
    /// `YESEXPR`: the expression of an answer that says yes.
    Yesexpr,
    /// `NOEXPR`: the expression of an answer that says no.
    Noexpr,
    /// `CRNCYSTR`: the currency symbol, behind a sign that says where it stands.
    Crncystr,
}
