//! The commands, and their table.

/// A command of the tool.
#[derive(Clone, Copy)]
pub enum ToolCommand {
    /// One that reads a locale.
    Locale(LocaleCommand),
    Check,
    Import,
    Explain,
    Run,
    Serial,
    Compare,
    Preview,
}

/// A command that reads a locale.
#[derive(Clone, Copy)]
pub enum LocaleCommand {
    Money,
    Time,
    Number,
    Info,
    Conv,
    Parse,
    Class,
    Upper,
    Lower,
}

/// The row of a command: its name, what it is for, and its arguments.
#[derive(Clone, Copy)]
pub struct CommandRow {
    pub command: ToolCommand,
    pub name: &'static str,
    pub about: &'static str,
    /// Those behind the options that say which locale is read, where it reads one.
    pub args: &'static [ArgRow],
}

/// An argument of a command.
#[derive(Clone, Copy)]
pub struct ArgRow {
    pub name: &'static str,
    pub takes: Takes,
    pub help: &'static str,
}

/// What an argument takes.
#[derive(Clone, Copy)]
pub enum Takes {
    /// A word that has to be there.
    Word,
    /// A word that has to be there, unless the argument with this name is given, beside which it may not stand.
    WordUnless(&'static str),
    /// A word that may be there.
    MaybeWord,
    /// Words, of which there may be any number.
    Words,
    /// Words, of which there is at least one.
    SomeWords,
    /// Words, of which there is at least one, unless the argument with this name is given.
    SomeWordsUnless(&'static str),
    /// A file behind the argument's name, or behind a letter.
    File(Option<char>),
    /// A folder behind the argument's name, or behind a letter.
    Folder(char),
    /// A folder behind the argument's name, which may be given again.
    Folders,
    /// `always`, `auto` or `never` behind the argument's name.
    When,
    /// Any text behind the argument's name.
    Text,
    /// Nothing.
    Flag,
}

const CHARMAP: ArgRow = ArgRow {
    name: "charmap",
    takes: Takes::File(None),
    help: "The charmap in which sources are read, or - for standard input; without it they are in UTF-8",
};

const PATH: ArgRow = ArgRow {
    name: "path",
    takes: Takes::Folders,
    help: "Where the file of a locale is that -l or a `copy` names; may be given again",
};

const GNU: ArgRow = ArgRow {
    name: "gnu",
    takes: Takes::Flag,
    help: "Takes a source of the system's own kind, which is imported on the way",
};

const JSON: ArgRow = ArgRow {
    name: "json",
    takes: Takes::Flag,
    help: "Prints one JSON object",
};

/// The option that each command has.
pub const COLOR: ArgRow = ArgRow {
    name: "color",
    takes: Takes::When,
    help: "Whether places and marks in messages have colours: always, never, or auto, which is on a terminal",
};

const CHARACTERS: ArgRow = ArgRow {
    name: "CHARACTER",
    takes: Takes::SomeWords,
    help: "A character, as itself, as U+00E9 or as a number",
};

const BUNDLES: ArgRow = ArgRow {
    name: "BUNDLE",
    takes: Takes::SomeWords,
    help: "A bundle with a script, or - for standard input",
};

const EXPLAIN: ArgRow = ArgRow {
    name: "explain",
    takes: Takes::Flag,
    help: "Prints the command behind each line, and counts refusals",
};

const STRICT: ArgRow = ArgRow {
    name: "strict",
    takes: Takes::Flag,
    help: "Ends with status 1 where a command is refused",
};

/// The options that say which locale is read.
pub const LOCALE_ARGS: [ArgRow; 5] = [
    ArgRow {
        name: "locale",
        takes: Takes::File(Some('l')),
        help: "The source of the locale, the name of a system's, or - for standard input; without it the POSIX locale is read",
    },
    CHARMAP,
    PATH,
    GNU,
    ArgRow {
        name: "strict",
        takes: Takes::Flag,
        help: "Refuses a source that lacks a category which is read",
    },
];

/// The rows of the commands, in the order in which help has them.
pub const COMMANDS: [CommandRow; 16] = [
    CommandRow {
        command: ToolCommand::Locale(LocaleCommand::Money),
        name: "money",
        about: "Prints amounts of money by a format of strfmon",
        args: &[
            ArgRow {
                name: "FORMAT",
                takes: Takes::Word,
                help: "A format, as `%n` or `%i`",
            },
            ArgRow {
                name: "AMOUNT",
                takes: Takes::Words,
                help: "An amount, as 1234.56",
            },
        ],
    },
    CommandRow {
        command: ToolCommand::Locale(LocaleCommand::Time),
        name: "time",
        about: "Prints a time by a format of strftime",
        args: &[
            ArgRow {
                name: "FORMAT",
                takes: Takes::Word,
                help: "A format, as `%c`",
            },
            ArgRow {
                name: "WHEN",
                takes: Takes::MaybeWord,
                help: "A time, as 2024-06-19T17:30:00-04:00[America/New_York] or `now`, which is the default, in the zone that TZ or the system names",
            },
        ],
    },
    CommandRow {
        command: ToolCommand::Locale(LocaleCommand::Number),
        name: "number",
        about: "Prints whole numbers and decimals by a format of printf, or reads one back",
        args: &[
            ArgRow {
                name: "FORMAT",
                takes: Takes::WordUnless("read"),
                help: "A format, as `%'d` or `%'.2f`",
            },
            ArgRow {
                name: "NUMBER",
                takes: Takes::Words,
                help: "A whole number, or for `%f` a decimal, as 1234.5",
            },
            ArgRow {
                name: "read",
                takes: Takes::Text,
                help: "Prints the number that this text is in the locale, with a point and without groups",
            },
        ],
    },
    CommandRow {
        command: ToolCommand::Locale(LocaleCommand::Info),
        name: "info",
        about: "Prints items of nl_langinfo",
        args: &[
            ArgRow {
                name: "ITEM",
                takes: Takes::Words,
                help: "An item, as D_FMT; without one, all of them with their names",
            },
            JSON,
        ],
    },
    CommandRow {
        command: ToolCommand::Locale(LocaleCommand::Conv),
        name: "conv",
        about: "Prints how numbers and amounts are written, a field a line",
        args: &[JSON],
    },
    CommandRow {
        command: ToolCommand::Locale(LocaleCommand::Parse),
        name: "parse",
        about: "Prints the fields of a time that a text has by a format of strptime",
        args: &[
            ArgRow {
                name: "FORMAT",
                takes: Takes::Word,
                help: "A format, as `%x`",
            },
            ArgRow {
                name: "TEXT",
                takes: Takes::Word,
                help: "The text",
            },
            JSON,
        ],
    },
    CommandRow {
        command: ToolCommand::Locale(LocaleCommand::Class),
        name: "class",
        about: "Prints whether characters are in a class",
        args: &[
            ArgRow {
                name: "NAME",
                takes: Takes::Word,
                help: "A class, as alpha",
            },
            CHARACTERS,
        ],
    },
    CommandRow {
        command: ToolCommand::Locale(LocaleCommand::Upper),
        name: "upper",
        about: "Prints the upper case of characters",
        args: &[CHARACTERS],
    },
    CommandRow {
        command: ToolCommand::Locale(LocaleCommand::Lower),
        name: "lower",
        about: "Prints the lower case of characters",
        args: &[CHARACTERS],
    },
    CommandRow {
        command: ToolCommand::Check,
        name: "check",
        about: "Checks locale sources, and charmaps, which have a line `CHARMAP`",
        args: &[
            ArgRow {
                name: "FILE",
                takes: Takes::SomeWordsUnless("charmap"),
                help: "A source or a charmap, or - for standard input; without one the file of --charmap is checked",
            },
            CHARMAP,
            PATH,
            ArgRow {
                name: "summary",
                takes: Takes::Flag,
                help: "Prints what each file has that is accepted",
            },
            JSON,
        ],
    },
    CommandRow {
        command: ToolCommand::Import,
        name: "import",
        about: "Makes standard sources of a system's own ones",
        args: &[
            ArgRow {
                name: "FILE",
                takes: Takes::SomeWords,
                help: "A source, or the name of a locale whose source the system has",
            },
            PATH,
            ArgRow {
                name: "output",
                takes: Takes::Folder('o'),
                help: "Where the standard sources go, each under its name; without it to standard output",
            },
            ArgRow {
                name: "notes",
                takes: Takes::Flag,
                help: "Tells of each line that is left out or changed, and not of each kind once",
            },
            JSON,
        ],
    },
    CommandRow {
        command: ToolCommand::Explain,
        name: "explain",
        about: "Prints the rule of a reason, what breaks it and what keeps it",
        args: &[
            ArgRow {
                name: "REASON",
                takes: Takes::Words,
                help: "A reason or a refusal, as BadNumber or OverLimit list, in any case of letters; without one, the names of all",
            },
            JSON,
        ],
    },
    CommandRow {
        command: ToolCommand::Run,
        name: "run",
        about: "Runs the scripts of bundles, the threads of a round in parallel",
        args: &[BUNDLES, EXPLAIN, STRICT],
    },
    CommandRow {
        command: ToolCommand::Serial,
        name: "serial",
        about: "Runs the scripts of bundles on one thread",
        args: &[BUNDLES, EXPLAIN, STRICT],
    },
    CommandRow {
        command: ToolCommand::Compare,
        name: "compare",
        about: "Prints what two locales define differently; the status is 1 where they do",
        args: &[
            ArgRow {
                name: "A",
                takes: Takes::Word,
                help: "The source of a locale, the name of a system's, POSIX, or - for standard input",
            },
            ArgRow {
                name: "B",
                takes: Takes::Word,
                help: "That of the other",
            },
            CHARMAP,
            PATH,
            GNU,
            JSON,
        ],
    },
    CommandRow {
        command: ToolCommand::Preview,
        name: "preview",
        about: "Prints locales at a glance, side by side",
        args: &[
            ArgRow {
                name: "NAME",
                takes: Takes::SomeWords,
                help: "The source of a locale, the name of a system's, POSIX, or - for standard input",
            },
            CHARMAP,
            PATH,
            GNU,
            ArgRow {
                name: "html",
                takes: Takes::Flag,
                help: "Writes a page of HTML that stands alone",
            },
        ],
    },
];
