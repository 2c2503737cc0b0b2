//! The rows of the table of reasons and refusals.

ghost use Rattle.std.specs.Prelude.{◌≡◌, ◌<◌, ◌≤◌, IsSome, None, slice_get};
ghost use Rattle.std.specs.Option.{option_map};
ghost use Rattle.reason_rules.specs.Limits.{ROW_COUNT};
ghost use Rattle.reason_rules.specs.Table.{rule_table, row_said};

/// A rule: what breaks it is refused for the reason with this name.
#[derive(Clone, Copy)]
pub struct ReasonRow {
    pub name: &'static str,
    /// The rule, as one sentence.
    pub rule: &'static str,
    /// Lines that break it.
    pub breaks: &'static str,
    /// Lines that keep it.
    pub keeps: &'static str,
}

/// How many rows there are.
pub const ROW_COUNT: u32 = 77;

/// The row with a number from 0, for each reason of a bundle, a charmap or a source, for each refusal of a
/// command, and for what the tool refuses of a source beyond its reader.
pub fn row_at(number: u32) -> Option<ReasonRow>
    ensures said { option_map row_said result ≡ slice_get rule_table number }
    ensures there { number < ROW_COUNT → IsSome result }
    ensures none { ROW_COUNT ≤ number → result ≡ None }
{
    match number {
        0..=7 => first_rows(number),
        8..=15 => second_rows(number),
        16..=22 => third_rows(number),
        23..=30 => fourth_rows(number),
        31..=38 => fifth_rows(number),
        39..=46 => sixth_rows(number),
        47..=51 => seventh_rows(number),
        52..=54 => eighth_rows(number),
        55..=61 => ninth_rows(number),
        62..=67 => tenth_rows(number),
        68..=72 => eleventh_rows(number),
        73..=76 => twelfth_rows(number),
        _ => None,
    }
}

#[tactic(auto, unfolding(crate::specs::Table::rule_table))]
fn first_rows(number: u32) -> Option<ReasonRow>
    requires below { number ≤ 7 }
    ensures said { option_map row_said result ≡ slice_get rule_table number }
    ensures there { IsSome result }
{
    let row = match number {
        0 => ReasonRow {
            name: "BadLine directive",
            rule: "a line that begins with `.` is a directive with the words that it wants, and `.native` stands at most once",
            breaks: ".locale C UTF-8",
            keeps: ".locale de UTF-8\n.end",
        },
        1 => ReasonRow {
            name: "BadLine thread",
            rule: "a command stands behind a `.thread` line of its round",
            breaks: "free x",
            keeps: ".thread A\nfree x",
        },
        2 => ReasonRow {
            name: "BadLine command",
            rule: "the first word of a command is one of the commands",
            breaks: ".thread A\nfrees x",
            keeps: ".thread A\nfree x",
        },
        3 => ReasonRow {
            name: "BadLine argument",
            rule: "a command has just the words that it wants, each of its kind",
            breaks: ".thread A\nfree 9",
            keeps: ".thread A\nfree x",
        },
        4 => ReasonRow {
            name: "NoEnd",
            rule: "a block ends with `.end`, a section with `END` and its name, and a charmap has the lines `CHARMAP` and `END CHARMAP`",
            breaks: "LC_TIME\nd_fmt \"%F\"",
            keeps: "LC_TIME\nd_fmt \"%F\"\nEND LC_TIME",
        },
        5 => ReasonRow {
            name: "OverLimit locales",
            rule: "a bundle has at most 64 locales",
            breaks: "a 65th `.locale`",
            keeps: "64 `.locale` blocks",
        },
        6 => ReasonRow {
            name: "OverLimit later",
            rule: "a bundle has at most 64 later versions",
            breaks: "a 65th `.later`",
            keeps: "64 `.later` blocks",
        },
        7 => ReasonRow {
            name: "OverLimit charmaps",
            rule: "a bundle has at most 16 charmaps",
            breaks: "a 17th `.charmap`",
            keeps: "16 `.charmap` blocks",
        },
        _ => return None,
    };
    Some(row)
}

#[tactic(auto, unfolding(crate::specs::Table::rule_table))]
fn second_rows(number: u32) -> Option<ReasonRow>
    requires below { number ≤ 15 }
    requires above { 8 ≤ number }
    ensures said { option_map row_said result ≡ slice_get rule_table number }
    ensures there { IsSome result }
{
    let row = match number {
        8 => ReasonRow {
            name: "OverLimit threads",
            rule: "a bundle has at most 16 threads",
            breaks: "a 17th name of a thread",
            keeps: "16 threads",
        },
        9 => ReasonRow {
            name: "OverLimit rounds",
            rule: "a bundle has at most 64 rounds",
            breaks: "a 64th `.round`",
            keeps: "63 `.round` lines",
        },
        10 => ReasonRow {
            name: "OverLimit commands",
            rule: "a bundle has at most 20000 commands",
            breaks: "a 20001st command",
            keeps: "20000 commands",
        },
        11 => ReasonRow {
            name: "OverLimit format",
            rule: "the format of a command has at most 1024 bytes",
            breaks: "a format of 1025 bytes",
            keeps: "money \"%n\" 1",
        },
        12 => ReasonRow {
            name: "OverLimit amounts",
            rule: "a command has at most 64 amounts",
            breaks: "a 65th amount",
            keeps: "money \"%n\" 1",
        },
        13 => ReasonRow {
            name: "OverLimit numbers",
            rule: "a command has at most 64 numbers",
            breaks: "a 65th number",
            keeps: "number \"%d\" 1",
        },
        14 => ReasonRow {
            name: "OverLimit text",
            rule: "a text of a command has at most 1024 bytes",
            breaks: "a text of 1025 bytes",
            keeps: "parse \"%d\" \"7\"",
        },
        15 => ReasonRow {
            name: "OverLimit catalogs",
            rule: "a bundle has at most 64 message catalogs",
            breaks: "a 65th `.catalog`",
            keeps: "64 `.catalog` blocks",
        },
        _ => return None,
    };
    Some(row)
}

#[tactic(auto, unfolding(crate::specs::Table::rule_table))]
fn third_rows(number: u32) -> Option<ReasonRow>
    requires below { number ≤ 22 }
    requires above { 16 ≤ number }
    ensures said { option_map row_said result ≡ slice_get rule_table number }
    ensures there { IsSome result }
{
    let row = match number {
        16 => ReasonRow {
            name: "OverLimit names",
            rule: "a charmap has at most 65536 names",
            breaks: "<q00000>...<q65536> \\x01\\x00\\x00\\x00",
            keeps: "<q00000>...<q65535> \\x01\\x00\\x00\\x00",
        },
        17 => ReasonRow {
            name: "OverLimit operands",
            rule: "a line has at most 65536 operands",
            breaks: "a 65537th operand",
            keeps: "grouping 3;3",
        },
        18 => ReasonRow {
            name: "OverLimit string",
            rule: "a text of a source has at most 256 bytes",
            breaks: "a text of 257 bytes",
            keeps: "positive_sign \"+\"",
        },
        19 => ReasonRow {
            name: "OverLimit list",
            rule: "the texts of `era` and of `alt_digits` have at most 4096 bytes together, the `;` between them counted",
            breaks: "texts of 4097 bytes",
            keeps: "alt_digits \"0\";\"1\"",
        },
        20 => ReasonRow {
            name: "OverLimit conversions",
            rule: "a format of a locale has at most 16 conversions, `%%` counted as one",
            breaks: "d_fmt \"%d%d%d%d%d%d%d%d%d%d%d%d%d%d%d%d%%\"",
            keeps: "d_fmt \"%d%%\"",
        },
        21 => ReasonRow {
            name: "OverLimit message",
            rule: "a message has at most 4096 bytes",
            breaks: "a message of 4097 bytes",
            keeps: "1 Hello",
        },
        22 => ReasonRow {
            name: "OverLimit messages",
            rule: "a message catalog has at most 4096 messages",
            breaks: "a 4097th message",
            keeps: "1 Hello",
        },
        _ => return None,
    };
    Some(row)
}

#[tactic(auto, unfolding(crate::specs::Table::rule_table))]
fn fourth_rows(number: u32) -> Option<ReasonRow>
    requires below { number ≤ 30 }
    requires above { 23 ≤ number }
    ensures said { option_map row_said result ≡ slice_get rule_table number }
    ensures there { IsSome result }
{
    let row = match number {
        23 => ReasonRow {
            name: "NameTwice",
            rule: "a name, a key or a character's name is given once",
            breaks: "<qq> \\x80\n<qq> \\x81",
            keeps: "<qq> \\x80\n<qr> \\x81",
        },
        24 => ReasonRow {
            name: "NoCharmap",
            rule: "a charset is `UTF-8`, `POSIX` or a charmap of the bundle",
            breaks: ".locale a b\n.end",
            keeps: ".locale a UTF-8\n.end",
        },
        25 => ReasonRow {
            name: "NoNative",
            rule: "`.native` names `C`, `POSIX` or a locale of the bundle",
            breaks: ".native b",
            keeps: ".native C",
        },
        26 => ReasonRow {
            name: "NoThread",
            rule: "a handle or a cell is one of a thread that a `.thread` line names",
            breaks: ".thread A\nuse B.0.1",
            keeps: ".thread A\nuse A.0.1",
        },
        27 => ReasonRow {
            name: "NoLater",
            rule: "`install` names the key of a `.later` line",
            breaks: ".thread A\ninstall k",
            keeps: ".later k a UTF-8\n.end\n.thread A\ninstall k",
        },
        28 => ReasonRow {
            name: "BadHeader",
            rule: "a line in front of `CHARMAP` is one of the header lines, with its operand",
            breaks: "<width> 2\nCHARMAP\nEND CHARMAP",
            keeps: "<code_set_name> \"A\"\nCHARMAP\nEND CHARMAP",
        },
        29 => ReasonRow {
            name: "BadEncoding",
            rule: "a line of a charmap is a name or a range and then an encoding, whose first byte of several is not 0 and which does not pass its greatest value within the range",
            breaks: "<qq> \\x00\\x80",
            keeps: "<qq> \\x80",
        },
        30 => ReasonRow {
            name: "RangeBackward",
            rule: "a range goes from a name to one with the same front and a number that is not less",
            breaks: "<q9>...<q2> \\x80",
            keeps: "<q2>...<q9> \\x80",
        },
        _ => return None,
    };
    Some(row)
}

#[tactic(auto, unfolding(crate::specs::Table::rule_table))]
fn fifth_rows(number: u32) -> Option<ReasonRow>
    requires below { number ≤ 38 }
    requires above { 31 ≤ number }
    ensures said { option_map row_said result ≡ slice_get rule_table number }
    ensures there { IsSome result }
{
    let row = match number {
        31 => ReasonRow {
            name: "PortableMoved",
            rule: "a character of the portable set has its own code as its encoding",
            breaks: "<A> \\x42",
            keeps: "<A> \\x41",
        },
        32 => ReasonRow {
            name: "WrongOperand",
            rule: "an operand is of the kind that its keyword wants, operands have a `;` between them, there is none too few or too many, and no range runs backward",
            breaks: "LC_TIME\ncopy a;b\nEND LC_TIME",
            keeps: "LC_TIME\ncopy \"POSIX\"\nEND LC_TIME",
        },
        33 => ReasonRow {
            name: "BadEscape",
            rule: "behind the escape character come the digits of a byte from 0 to 255",
            breaks: "grouping 3;\\400",
            keeps: "grouping 3;3",
        },
        34 => ReasonRow {
            name: "OpenString",
            rule: "a text ends with a quote",
            breaks: "decimal_point \",",
            keeps: "decimal_point \",\"",
        },
        35 => ReasonRow {
            name: "OpenName",
            rule: "the name of a character ends with `>` before a blank",
            breaks: "upper <B C>",
            keeps: "upper <B>;<C>",
        },
        36 => ReasonRow {
            name: "SectionTwice",
            rule: "a source has at most one section of each category",
            breaks: "LC_TIME\nEND LC_TIME\nLC_TIME\nEND LC_TIME",
            keeps: "LC_TIME\nEND LC_TIME",
        },
        37 => ReasonRow {
            name: "UnknownKeyword",
            rule: "a line of a section begins with a keyword of its category, and each line outside of sections is a comment or a header",
            breaks: "LC_CTYPE\nuper A\nEND LC_CTYPE",
            keeps: "LC_CTYPE\nupper A\nEND LC_CTYPE",
        },
        38 => ReasonRow {
            name: "KeywordTwice",
            rule: "a section gives each keyword once, but for `charclass`",
            breaks: "grouping 3\ngrouping 3",
            keeps: "grouping 3",
        },
        _ => return None,
    };
    Some(row)
}

#[tactic(auto, unfolding(crate::specs::Table::rule_table))]
fn sixth_rows(number: u32) -> Option<ReasonRow>
    requires below { number ≤ 46 }
    requires above { 39 ≤ number }
    ensures said { option_map row_said result ≡ slice_get rule_table number }
    ensures there { IsSome result }
{
    let row = match number {
        39 => ReasonRow {
            name: "CopyNotAlone",
            rule: "a section that copies has no other line",
            breaks: "LC_TIME\nd_fmt \"%F\"\ncopy \"POSIX\"\nEND LC_TIME",
            keeps: "LC_TIME\ncopy \"POSIX\"\nEND LC_TIME",
        },
        40 => ReasonRow {
            name: "UnknownCharacter",
            rule: "a name or the bytes of an operand are characters of the charset",
            breaks: "yesexpr \"<no>\"",
            keeps: "yesexpr \"<n><o>\"",
        },
        41 => ReasonRow {
            name: "CopyMissing",
            rule: "the locale that a copy names is there, and has the category",
            breaks: "LC_TIME\ncopy \"nowhere\"\nEND LC_TIME",
            keeps: "LC_TIME\ncopy \"POSIX\"\nEND LC_TIME",
        },
        42 => ReasonRow {
            name: "CopyCycle",
            rule: "copies end at a section that does not copy",
            breaks: "LC_TIME of the locale a\ncopy \"a\"\nEND LC_TIME",
            keeps: "LC_TIME of the locale a\ncopy \"POSIX\"\nEND LC_TIME",
        },
        43 => ReasonRow {
            name: "BadClassName",
            rule: "the name of a class has 1 to 14 letters and digits, a letter first, and is not taken",
            breaks: "charclass upper",
            keeps: "charclass vowel",
        },
        44 => ReasonRow {
            name: "DigitsNotTen",
            rule: "the operands of `digit` are the ten digits",
            breaks: "digit A",
            keeps: "digit <zero>;...;<nine>",
        },
        45 => ReasonRow {
            name: "NotCased",
            rule: "the characters of a pair are in `upper` or in `lower`",
            breaks: "toupper (1,A)",
            keeps: "toupper (a,A)",
        },
        46 => ReasonRow {
            name: "Excluded",
            rule: "two classes that exclude one another share no character",
            breaks: "upper <space>",
            keeps: "space <space>",
        },
        _ => return None,
    };
    Some(row)
}

#[tactic(auto, unfolding(crate::specs::Table::rule_table))]
fn seventh_rows(number: u32) -> Option<ReasonRow>
    requires below { number ≤ 51 }
    requires above { 47 ≤ number }
    ensures said { option_map row_said result ≡ slice_get rule_table number }
    ensures there { IsSome result }
{
    let row = match number {
        47 => ReasonRow {
            name: "EmptyRadix",
            rule: "`decimal_point` is not empty",
            breaks: "decimal_point \"\"",
            keeps: "decimal_point \",\"",
        },
        48 => ReasonRow {
            name: "BadCurrency",
            rule: "`int_curr_symbol` has 0 or 4 bytes",
            breaks: "int_curr_symbol \"USD\"",
            keeps: "int_curr_symbol \"USD \"",
        },
        49 => ReasonRow {
            name: "BadNumber",
            rule: "a number is from -1 to 126 in a grouping, to 18 for digits behind the point, to 1 for `cs_precedes`, to 2 for `sep_by_space` and to 4 for `sign_posn`",
            breaks: "frac_digits 19",
            keeps: "frac_digits 2",
        },
        50 => ReasonRow {
            name: "WrongCount",
            rule: "`day` and `abday` have 7 texts, `mon` and `abmon` 12, `am_pm` 2, and each other keyword of LC_TIME 1, but for `era` and `alt_digits`",
            breaks: "am_pm \"AM\"",
            keeps: "am_pm \"AM\";\"PM\"",
        },
        51 => ReasonRow {
            name: "BadEra",
            rule: "a text of `era` is direction:offset:start:end:name:format",
            breaks: "era \"+:1:2019/05/01:+*\"",
            keeps: "era \"+:1:2019/05/01:+*:Reiwa:%EC%Ey\"",
        },
        _ => return None,
    };
    Some(row)
}

#[tactic(auto, unfolding(crate::specs::Table::rule_table))]
fn eighth_rows(number: u32) -> Option<ReasonRow>
    requires below { number ≤ 54 }
    requires above { 52 ≤ number }
    ensures said { option_map row_said result ≡ slice_get rule_table number }
    ensures there { IsSome result }
{
    let row = match number {
        52 => ReasonRow {
            name: "BadFormat",
            rule: "a `%` of a format begins a conversion: of a time one of aAbBcCdDeFgGhHIjmMnprRStTuUVwWxXyYzZ%, or E and one of cCxXyY, or O and one of deHImMSuUVwWy; of an amount i, n or %; of a number d, i, u or %, and for `locale_tool number` f",
            breaks: "t_fmt \"a%Q\"",
            keeps: "t_fmt \"a%%Q\"",
        },
        53 => ReasonRow {
            name: "FormatRank",
            rule: "a format of a locale has only conversions of a lower rank than its own",
            breaks: "t_fmt \"%X\"",
            keeps: "t_fmt \"%H:%M:%S\"",
        },
        54 => ReasonRow {
            name: "TooManyDigits",
            rule: "there are at most 100 alternative digits",
            breaks: "a 101st text of `alt_digits`",
            keeps: "alt_digits \"0\";\"1\"",
        },
        _ => return None,
    };
    Some(row)
}

#[tactic(auto, unfolding(crate::specs::Table::rule_table))]
fn ninth_rows(number: u32) -> Option<ReasonRow>
    requires below { number ≤ 61 }
    requires above { 55 ≤ number }
    ensures said { option_map row_said result ≡ slice_get rule_table number }
    ensures there { IsSome result }
{
    let row = match number {
        55 => ReasonRow {
            name: "BadMessage",
            rule: "a line of a message catalog is a comment, a directive or a number and a text; numbers have no leading 0, and an octal escape is at most 377",
            breaks: "02 Bye",
            keeps: "2 Bye",
        },
        56 => ReasonRow {
            name: "Unset",
            rule: "a variable is bound by an earlier accepted command of the thread",
            breaks: "use x",
            keeps: "new x LC_ALL C\nuse x",
        },
        57 => ReasonRow {
            name: "BadMask",
            rule: "the bits of a mask are those of the categories, below 32",
            breaks: "new x 32 C",
            keeps: "new x 31 C",
        },
        58 => ReasonRow {
            name: "NoData",
            rule: "the locale that is named is there, and has each category of the mask",
            breaks: "setlocale LC_TIME nowhere",
            keeps: "setlocale LC_TIME C",
        },
        59 => ReasonRow {
            name: "NoCatalog",
            rule: "`catopen` names a catalog with the locale of LC_MESSAGES",
            breaks: "catopen c nowhere",
            keeps: "catopen c greet",
        },
        60 => ReasonRow {
            name: "GlobalHandle",
            rule: "the call wants an object, and not the global locale",
            breaks: "free GLOBAL",
            keeps: "free x",
        },
        61 => ReasonRow {
            name: "NeverMade",
            rule: "a handle is one that a call made",
            breaks: "use A.5.1",
            keeps: "use A.0.1",
        },
        _ => return None,
    };
    Some(row)
}

#[tactic(auto, unfolding(crate::specs::Table::rule_table))]
fn tenth_rows(number: u32) -> Option<ReasonRow>
    requires below { number ≤ 67 }
    requires above { 62 ≤ number }
    ensures said { option_map row_said result ≡ slice_get rule_table number }
    ensures there { IsSome result }
{
    let row = match number {
        62 => ReasonRow {
            name: "Stale",
            rule: "a handle is one that is not freed or closed",
            breaks: "free x\nuse x",
            keeps: "use x\nfree x",
        },
        63 => ReasonRow {
            name: "TooMany",
            rule: "a thread has a free row for what it makes",
            breaks: "a seventeenth `new` at 16 rows",
            keeps: "free x\nnew y LC_ALL C",
        },
        64 => ReasonRow {
            name: "AlreadyHeld",
            rule: "a thread holds an object once",
            breaks: "hold x\nhold x",
            keeps: "hold x\nrelease x",
        },
        65 => ReasonRow {
            name: "NotHeld",
            rule: "a thread gives back what it holds",
            breaks: "release x",
            keeps: "hold x\nrelease x",
        },
        66 => ReasonRow {
            name: "EmptyCell",
            rule: "a cell is read once something was put into it",
            breaks: "fetch y A.3",
            keeps: "post 3 x\nfetch y A.3",
        },
        67 => ReasonRow {
            name: "NoClass",
            rule: "the class is one of the twelve, or one that the locale declares",
            breaks: "class vowel 65",
            keeps: "class alpha 65",
        },
        _ => return None,
    };
    Some(row)
}

#[tactic(auto, unfolding(crate::specs::Table::rule_table))]
fn eleventh_rows(number: u32) -> Option<ReasonRow>
    requires below { number ≤ 72 }
    requires above { 68 ≤ number }
    ensures said { option_map row_said result ≡ slice_get rule_table number }
    ensures there { IsSome result }
{
    let row = match number {
        68 => ReasonRow {
            name: "TmRange",
            rule: "year is from 1 to 9999, mon from 1 to 12, mday to 31, hour from 0 to 23, min to 59, sec to 60, wday to 6, yday to 365, and offset less than a day",
            breaks: "time \"%F\" 2021-13-03 0:0:0 0 2",
            keeps: "time \"%F\" 2021-12-03 0:0:0 5 336",
        },
        69 => ReasonRow {
            name: "MissingAmount",
            rule: "each conversion of the format has an amount",
            breaks: "money \"%n %n\" 1",
            keeps: "money \"%n %n\" 1 2",
        },
        70 => ReasonRow {
            name: "MissingNumber",
            rule: "each conversion of the format has a number",
            breaks: "number \"%d %d\" 1",
            keeps: "number \"%d %d\" 1 2",
        },
        71 => ReasonRow {
            name: "Mismatch",
            rule: "the text meets the format",
            breaks: "parse \"%d\" \"32\"",
            keeps: "parse \"%d\" \"31\"",
        },
        72 => ReasonRow {
            name: "TooBig",
            rule: "the text has at most as many bytes as were asked for",
            breaks: "money max=3 \"%n\" 5",
            keeps: "money max=4 \"%n\" 5",
        },
        _ => return None,
    };
    Some(row)
}

#[tactic(auto, unfolding(crate::specs::Table::rule_table))]
fn twelfth_rows(number: u32) -> Option<ReasonRow>
    requires below { number ≤ 76 }
    requires above { 73 ≤ number }
    ensures said { option_map row_said result ≡ slice_get rule_table number }
    ensures there { IsSome result }
{
    let row = match number {
        73 => ReasonRow {
            name: "CarriageReturn",
            rule: "a line of a source ends with LF alone; a CR is a byte of its last word",
            breaks: "a line `LC_TIME` that ends with CR LF",
            keeps: "LC_TIME\nEND LC_TIME",
        },
        74 => ReasonRow {
            name: "UnknownSection",
            rule: "a section is LC_CTYPE, LC_COLLATE, LC_MESSAGES, LC_MONETARY, LC_NUMERIC or LC_TIME; nothing is read of any other",
            breaks: "LC_MONETRY\nfrac_digits 2\nEND LC_MONETRY",
            keeps: "LC_MONETARY\nfrac_digits 2\nEND LC_MONETARY",
        },
        75 => ReasonRow {
            name: "NoSection",
            rule: "a source has a section",
            breaks: "a file that has comments and blank lines alone",
            keeps: "LC_TIME\nEND LC_TIME",
        },
        76 => ReasonRow {
            name: "NoCategory",
            rule: "with `--strict` a source has each category that is read of it",
            breaks: "a source without LC_MONETARY, for `money --strict`",
            keeps: "LC_MONETARY\nEND LC_MONETARY",
        },
        _ => return None,
    };
    Some(row)
}
