//! The commands of a script.

use lc_base::{Amount, ByteText, Handle, Item, List};
use script_words::{CategoryArgument, CommandText, Format, UncheckedTime, WrittenNumber};

/// What a command names.
#[derive(Drop)]
pub enum Target {
    /// `GLOBAL`: the global locale.
    Global,
    /// What the variable of this name stands for.
    Variable(ByteText),
    /// `THREAD.ROW.GENERATION`, with the number of the thread.
    Handle(Handle),
}

/// A message catalog that a command names. The variables of catalogs have names of their own: one of
/// locales may have the same name.
#[derive(Drop)]
pub enum OpenCatalog {
    /// What the variable of this name stands for.
    Variable(ByteText),
    /// `THREAD.ROW.GENERATION`, with the number of the thread.
    Handle(Handle),
}

/// What a command reads from an object. The forms with a handle have the same words behind it; for
/// localeconv there is none (XSH localeconv).
#[derive(Drop)]
pub enum Read {
    /// `info ITEM`, `info_l H ITEM`: nl_langinfo, nl_langinfo_l.
    Info(Item),
    /// `conv`: localeconv.
    Conv,
    /// `class NAME W`, `class_l H NAME W`: iswctype, iswctype_l.
    Class {
        /// The name of the class.
        class: ByteText,
        /// The wide value.
        value: u32,
    },
    /// `upper W`, `upper_l H W`: towupper, towupper_l.
    Upper(u32),
    /// `lower W`, `lower_l H W`: towlower, towlower_l.
    Lower(u32),
    /// `money MAX F AMOUNTS`, `money_l H MAX F AMOUNTS`: strfmon, strfmon_l.
    Money {
        /// The most bytes of the text.
        max: u32,
        format: Format,
        amounts: List<Amount>,
    },
    /// `time MAX F DATE CLOCK WDAY YDAY OFFSET ZONE`, and `time_l H` with the same: strftime,
    /// strftime_l.
    Time {
        /// The most bytes of the text.
        max: u32,
        format: Format,
        time: UncheckedTime,
    },
    /// `number MAX F NUMBERS`, `number_l H MAX F NUMBERS`: printf's whole numbers.
    Number {
        /// The most bytes of the text.
        max: u32,
        format: Format,
        numbers: List<WrittenNumber>,
    },
    /// `parse F TEXT`, `parse_l H F TEXT`: strptime.
    Parse {
        format: Format,
        text: CommandText,
    },
}

/// A command. The bits of a mask are kept as they are written, also bits that no category has.
#[derive(Drop)]
pub enum Command {
    /// `new N MASK LOC`, `new N MASK LOC H`: newlocale.
    New {
        /// The variable that is bound to the handle.
        variable: ByteText,
        /// The bits of the mask.
        mask: u32,
        /// The name of the locale.
        locale: ByteText,
        /// The object that is changed, where one is given.
        base: Option<Target>,
    },
    /// `dup N H`: duplocale.
    Dup {
        /// The variable that is bound to the handle.
        variable: ByteText,
        /// What is copied.
        from: Target,
    },
    /// `free H`: freelocale.
    Free(Target),
    /// `use H`: uselocale.
    Use(Target),
    /// `use ?`: uselocale that asks what is selected.
    Selected,
    /// `hold H`: a pin of the thread's own is taken.
    Hold(Target),
    /// `release H`: the thread's own pin is given back.
    Release(Target),
    /// `setlocale CAT LOC`: setlocale.
    Setlocale {
        /// What is set.
        categories: CategoryArgument,
        /// The name of the locale.
        locale: ByteText,
    },
    /// `setlocale CAT`: setlocale that asks for the name.
    LocaleName(CategoryArgument),
    /// `install KEY`: the later version with this key is what its name means from now on.
    Install(ByteText),
    /// `post K H`: a handle is put into a cell of the thread.
    Post {
        /// The number of the cell, below 8.
        cell: u32,
        /// What is put there.
        named: Target,
    },
    /// `fetch N THREAD.K`: the handle in a cell of a thread.
    Fetch {
        /// The variable that is bound to the handle.
        variable: ByteText,
        /// The number of the thread, from 0.
        owner: u32,
        /// The number of the cell, below 8.
        cell: u32,
    },
    /// `pins H`: the number of pins.
    Pins(Target),
    /// A command that reads the thread's own object, or the global locale.
    Read(Read),
    /// The form of such a command whose word ends in `_l`: it reads the object of a handle.
    ReadOf {
        /// The object that is read.
        object: Target,
        read: Read,
    },
    /// `catopen N NAME`: catopen.
    CatOpen {
        /// The variable that is bound to the handle, among those of catalogs.
        variable: ByteText,
        /// The name of the catalog.
        name: ByteText,
    },
    /// `catgets C SET MSG "DEFAULT"`: catgets.
    CatGets {
        catalog: OpenCatalog,
        /// The number of the set.
        set: u32,
        /// The number of the message in its set.
        message: u32,
        /// What is printed where the catalog has no such message, at most 1024 bytes.
        default: ByteText,
    },
    /// `catclose C`: catclose.
    CatClose(OpenCatalog),
}

/// A command with its place in the script.
#[derive(Drop)]
pub struct Placed {
    /// The round, from 1.
    pub round: u32,
    /// The number of the thread, from 0.
    pub thread: u32,
    pub command: Command,
}
