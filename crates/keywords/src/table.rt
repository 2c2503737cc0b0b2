//! The table, a part for each category. Which keywords are passed over is our own rule.

use crate::row::{Element, Keyword, Operands, Posix, Rule};

/// Each small portable letter with its capital.
const LETTER_PAIRS: [(u32, u32); 26] = [
    (97, 65),
    (98, 66),
    (99, 67),
    (100, 68),
    (101, 69),
    (102, 70),
    (103, 71),
    (104, 72),
    (105, 73),
    (106, 74),
    (107, 75),
    (108, 76),
    (109, 77),
    (110, 78),
    (111, 79),
    (112, 80),
    (113, 81),
    (114, 82),
    (115, 83),
    (116, 84),
    (117, 85),
    (118, 86),
    (119, 87),
    (120, 88),
    (121, 89),
    (122, 90),
];

const SHORT_WEEKDAYS: [&[u8]; 7] = [b"Sun", b"Mon", b"Tue", b"Wed", b"Thu", b"Fri", b"Sat"];

const WEEKDAYS: [&[u8]; 7] = [
    b"Sunday",
    b"Monday",
    b"Tuesday",
    b"Wednesday",
    b"Thursday",
    b"Friday",
    b"Saturday",
];

const SHORT_MONTHS: [&[u8]; 12] = [
    b"Jan", b"Feb", b"Mar", b"Apr", b"May", b"Jun", b"Jul", b"Aug", b"Sep", b"Oct", b"Nov", b"Dec",
];

const MONTHS: [&[u8]; 12] = [
    b"January",
    b"February",
    b"March",
    b"April",
    b"May",
    b"June",
    b"July",
    b"August",
    b"September",
    b"October",
    b"November",
    b"December",
];

/// The keywords of `LC_CTYPE`.
#[rattlefmt::skip]
pub static CTYPE: [Keyword; 16] = [
    Keyword { name: b"copy", takes: Operands::Copied, rule: Rule::Free, posix: Posix::Nothing },
    Keyword { name: b"upper", takes: Operands::Characters, rule: Rule::Free, posix: Posix::Ranges(&[]) },
    Keyword { name: b"lower", takes: Operands::Characters, rule: Rule::Free, posix: Posix::Ranges(&[]) },
    Keyword { name: b"alpha", takes: Operands::Characters, rule: Rule::Free, posix: Posix::Ranges(&[]) },
    Keyword { name: b"digit", takes: Operands::Characters, rule: Rule::TenDigits, posix: Posix::Ranges(&[]) },
    Keyword { name: b"alnum", takes: Operands::Characters, rule: Rule::Free, posix: Posix::Ranges(&[]) },
    Keyword { name: b"space", takes: Operands::Characters, rule: Rule::Free, posix: Posix::Ranges(&[]) },
    Keyword { name: b"cntrl", takes: Operands::Characters, rule: Rule::Free, posix: Posix::Ranges(&[(0, 31), (127, 127)]) },
    Keyword { name: b"punct", takes: Operands::Characters, rule: Rule::Free, posix: Posix::Ranges(&[(33, 47), (58, 64), (91, 96), (123, 126)]) },
    Keyword { name: b"graph", takes: Operands::Characters, rule: Rule::Free, posix: Posix::Ranges(&[]) },
    Keyword { name: b"print", takes: Operands::Characters, rule: Rule::Free, posix: Posix::Ranges(&[]) },
    Keyword { name: b"xdigit", takes: Operands::Characters, rule: Rule::Free, posix: Posix::Ranges(&[]) },
    Keyword { name: b"blank", takes: Operands::Characters, rule: Rule::Free, posix: Posix::Ranges(&[]) },
    Keyword { name: b"charclass", takes: Operands::Several(Element::Word), rule: Rule::ClassNames, posix: Posix::Texts(&[]) },
    Keyword { name: b"toupper", takes: Operands::Several(Element::CasePair), rule: Rule::Cased, posix: Posix::Pairs(&LETTER_PAIRS) },
    Keyword { name: b"tolower", takes: Operands::Several(Element::CasePair), rule: Rule::Cased, posix: Posix::TurnedUpper },
];

/// The keywords of `LC_NUMERIC`.
#[rattlefmt::skip]
pub static NUMERIC: [Keyword; 4] = [
    Keyword { name: b"copy", takes: Operands::Copied, rule: Rule::Free, posix: Posix::Nothing },
    Keyword { name: b"decimal_point", takes: Operands::One(Element::Quote), rule: Rule::NotEmpty, posix: Posix::Text(b".") },
    Keyword { name: b"thousands_sep", takes: Operands::One(Element::Quote), rule: Rule::Free, posix: Posix::Text(b"") },
    Keyword { name: b"grouping", takes: Operands::Several(Element::Whole), rule: Rule::Between(-1, 126), posix: Posix::Number(-1) },
];

/// The keywords of `LC_MONETARY`.
#[rattlefmt::skip]
pub static MONETARY: [Keyword; 22] = [
    Keyword { name: b"copy", takes: Operands::Copied, rule: Rule::Free, posix: Posix::Nothing },
    Keyword { name: b"int_curr_symbol", takes: Operands::One(Element::Quote), rule: Rule::EmptyOrFour, posix: Posix::Text(b"") },
    Keyword { name: b"currency_symbol", takes: Operands::One(Element::Quote), rule: Rule::Free, posix: Posix::Text(b"") },
    Keyword { name: b"mon_decimal_point", takes: Operands::One(Element::Quote), rule: Rule::Free, posix: Posix::Text(b"") },
    Keyword { name: b"mon_thousands_sep", takes: Operands::One(Element::Quote), rule: Rule::Free, posix: Posix::Text(b"") },
    Keyword { name: b"mon_grouping", takes: Operands::Several(Element::Whole), rule: Rule::Between(-1, 126), posix: Posix::Number(-1) },
    Keyword { name: b"positive_sign", takes: Operands::One(Element::Quote), rule: Rule::Free, posix: Posix::Text(b"") },
    Keyword { name: b"negative_sign", takes: Operands::One(Element::Quote), rule: Rule::Free, posix: Posix::Text(b"") },
    Keyword { name: b"int_frac_digits", takes: Operands::One(Element::Whole), rule: Rule::Between(-1, 18), posix: Posix::Number(-1) },
    Keyword { name: b"frac_digits", takes: Operands::One(Element::Whole), rule: Rule::Between(-1, 18), posix: Posix::Number(-1) },
    Keyword { name: b"p_cs_precedes", takes: Operands::One(Element::Whole), rule: Rule::Between(-1, 1), posix: Posix::Number(-1) },
    Keyword { name: b"p_sep_by_space", takes: Operands::One(Element::Whole), rule: Rule::Between(-1, 2), posix: Posix::Number(-1) },
    Keyword { name: b"n_cs_precedes", takes: Operands::One(Element::Whole), rule: Rule::Between(-1, 1), posix: Posix::Number(-1) },
    Keyword { name: b"n_sep_by_space", takes: Operands::One(Element::Whole), rule: Rule::Between(-1, 2), posix: Posix::Number(-1) },
    Keyword { name: b"p_sign_posn", takes: Operands::One(Element::Whole), rule: Rule::Between(-1, 4), posix: Posix::Number(-1) },
    Keyword { name: b"n_sign_posn", takes: Operands::One(Element::Whole), rule: Rule::Between(-1, 4), posix: Posix::Number(-1) },
    Keyword { name: b"int_p_cs_precedes", takes: Operands::One(Element::Whole), rule: Rule::Between(-1, 1), posix: Posix::Number(-1) },
    Keyword { name: b"int_n_cs_precedes", takes: Operands::One(Element::Whole), rule: Rule::Between(-1, 1), posix: Posix::Number(-1) },
    Keyword { name: b"int_p_sep_by_space", takes: Operands::One(Element::Whole), rule: Rule::Between(-1, 2), posix: Posix::Number(-1) },
    Keyword { name: b"int_n_sep_by_space", takes: Operands::One(Element::Whole), rule: Rule::Between(-1, 2), posix: Posix::Number(-1) },
    Keyword { name: b"int_p_sign_posn", takes: Operands::One(Element::Whole), rule: Rule::Between(-1, 4), posix: Posix::Number(-1) },
    Keyword { name: b"int_n_sign_posn", takes: Operands::One(Element::Whole), rule: Rule::Between(-1, 4), posix: Posix::Number(-1) },
];

/// The keywords of `LC_TIME`.
#[rattlefmt::skip]
pub static TIME: [Keyword; 23] = [
    Keyword { name: b"copy", takes: Operands::Copied, rule: Rule::Free, posix: Posix::Nothing },
    Keyword { name: b"abday", takes: Operands::Several(Element::Quote), rule: Rule::Names(7), posix: Posix::Texts(&SHORT_WEEKDAYS) },
    Keyword { name: b"day", takes: Operands::Several(Element::Quote), rule: Rule::Names(7), posix: Posix::Texts(&WEEKDAYS) },
    Keyword { name: b"abmon", takes: Operands::Several(Element::Quote), rule: Rule::Names(12), posix: Posix::Texts(&SHORT_MONTHS) },
    Keyword { name: b"mon", takes: Operands::Several(Element::Quote), rule: Rule::Names(12), posix: Posix::Texts(&MONTHS) },
    Keyword { name: b"d_t_fmt", takes: Operands::One(Element::Quote), rule: Rule::Format(4), posix: Posix::Text(b"%a %b %e %H:%M:%S %Y") },
    Keyword { name: b"d_fmt", takes: Operands::One(Element::Quote), rule: Rule::Format(3), posix: Posix::Text(b"%m/%d/%y") },
    Keyword { name: b"t_fmt", takes: Operands::One(Element::Quote), rule: Rule::Format(3), posix: Posix::Text(b"%H:%M:%S") },
    Keyword { name: b"am_pm", takes: Operands::Several(Element::Quote), rule: Rule::Names(2), posix: Posix::Texts(&[b"AM", b"PM"]) },
    Keyword { name: b"t_fmt_ampm", takes: Operands::One(Element::Quote), rule: Rule::Format(2), posix: Posix::Text(b"%I:%M:%S %p") },
    Keyword { name: b"era", takes: Operands::Several(Element::Quote), rule: Rule::Segments, posix: Posix::Texts(&[]) },
    Keyword { name: b"era_d_fmt", takes: Operands::One(Element::Quote), rule: Rule::Format(3), posix: Posix::Text(b"") },
    Keyword { name: b"era_t_fmt", takes: Operands::One(Element::Quote), rule: Rule::Format(3), posix: Posix::Text(b"") },
    Keyword { name: b"era_d_t_fmt", takes: Operands::One(Element::Quote), rule: Rule::Format(4), posix: Posix::Text(b"") },
    Keyword { name: b"alt_digits", takes: Operands::Several(Element::Quote), rule: Rule::Digits, posix: Posix::Texts(&[]) },
    Keyword { name: b"week", takes: Operands::PassedOver, rule: Rule::Free, posix: Posix::Nothing },
    Keyword { name: b"first_weekday", takes: Operands::PassedOver, rule: Rule::Free, posix: Posix::Nothing },
    Keyword { name: b"first_workday", takes: Operands::PassedOver, rule: Rule::Free, posix: Posix::Nothing },
    Keyword { name: b"cal_direction", takes: Operands::PassedOver, rule: Rule::Free, posix: Posix::Nothing },
    Keyword { name: b"date_fmt", takes: Operands::PassedOver, rule: Rule::Free, posix: Posix::Nothing },
    Keyword { name: b"timezone", takes: Operands::PassedOver, rule: Rule::Free, posix: Posix::Nothing },
    Keyword { name: b"alt_mon", takes: Operands::PassedOver, rule: Rule::Free, posix: Posix::Nothing },
    Keyword { name: b"ab_alt_mon", takes: Operands::PassedOver, rule: Rule::Free, posix: Posix::Nothing },
];

/// The keywords of `LC_MESSAGES`.
#[rattlefmt::skip]
pub static MESSAGES: [Keyword; 5] = [
    Keyword { name: b"copy", takes: Operands::Copied, rule: Rule::Free, posix: Posix::Nothing },
    Keyword { name: b"yesexpr", takes: Operands::One(Element::Quote), rule: Rule::Free, posix: Posix::Text(b"^[yY]") },
    Keyword { name: b"noexpr", takes: Operands::One(Element::Quote), rule: Rule::Free, posix: Posix::Text(b"^[nN]") },
    Keyword { name: b"yesstr", takes: Operands::PassedOver, rule: Rule::Free, posix: Posix::Nothing },
    Keyword { name: b"nostr", takes: Operands::PassedOver, rule: Rule::Free, posix: Posix::Nothing },
];
