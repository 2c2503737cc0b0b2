//! What a command asks for.

ghost use Rattle.std.specs.Prelude.{◌≡◌};
ghost use Rattle.handle_table.specs.Seen.{op_of};
ghost use Rattle.handle_table.specs.Entry as table;
ghost use Rattle.script_wishes.specs.Seen.{asked, task_seen, wished};
ghost use Rattle.script_wishes.specs.Wishes.{named, base_named, mask_of, categories_mask, named_numbers, new_op, set_op, setlocale_op, install_op, op_on, called, read_of, catalog_named, message_of, close_of, wish, wish_of};

use crate::turns::Task;
use crate::variables::{Variables, catalog_variable, locale_variable};
use category_store::{Library, Share};
use handle_table::{Op, Refusal};
use lc_base::{ByteText, Handle, Mask, Named};
use script_commands::{Command, OpenCatalog, Read, Target};
use script_out::Why;
use script_words::CategoryArgument;

/// Which message is asked for, and what stands for it where the catalog has none (XSH catgets).
#[derive(Clone, Copy)]
pub struct Wanted<'a> {
    /// The message's set.
    pub set: u32,
    /// Its number in the set.
    pub message: u32,
    /// The default.
    pub default: &'a ByteText,
}

/// What a command asks for.
#[derive(Drop)]
pub enum Wish<'a> {
    /// A call of the table, with the categories whose name an accepted setlocale prints.
    Call(CategoryArgument, Op<Share>),
    /// A read of what is named.
    ReadOf(Named, &'a Read),
    /// A read of the thread's own object, or else of the global locale.
    Read(&'a Read),
    /// What the thread has selected.
    Selection,
    /// The name of the global locale.
    Name(CategoryArgument),
    /// A catalog to be opened by its name.
    OpenCatalog(&'a ByteText),
    /// A message of an open catalog.
    GetMessage(Handle, Wanted<'a>),
    /// A catalog to be closed.
    CloseCatalog(Handle),
}

/// What a task of the thread asks for, or why it is refused without an entry.
#[inline(always)]
pub fn wish_of<'a>(
    library: &Library,
    variables: &Variables,
    task: Task<'a>,
) -> Result<Wish<'a>, Why>
    ensures { wished result ≡ wish_of library.now variables.now (task_seen task.entry) }
{
    match task {
        Task::Command(command) => wish_of_command(library, variables, command),
        Task::Release(handle) => Ok(Wish::Call(
            CategoryArgument::All,
            Op::Release {
                h: Named::Of(handle),
            },
        )),
        Task::End => Ok(Wish::Call(CategoryArgument::All, Op::End)),
    }
}

/// What a command of the thread asks for, or why it is refused without an entry.
#[inline(always)]
fn wish_of_command<'a>(
    library: &Library,
    variables: &Variables,
    command: &'a Command,
) -> Result<Wish<'a>, Why>
    ensures { wished result ≡ wish library.now variables.now command.now }
{
    match command {
        Command::New {
            mask,
            locale,
            base,
            ..
        } => called(
            CategoryArgument::All,
            new_op(library, variables, *mask, locale, base),
        ),
        Command::Dup { from, .. } => called(CategoryArgument::All, dup_op(variables, from)),
        Command::Free(target) => called(CategoryArgument::All, free_op(variables, target)),
        Command::Use(target) => called(CategoryArgument::All, use_op(variables, target)),
        Command::Selected => Ok(Wish::Selection),
        Command::Hold(target) => called(CategoryArgument::All, hold_op(variables, target)),
        Command::Release(target) => called(CategoryArgument::All, release_op(variables, target)),
        Command::Setlocale { categories, locale } => {
            called(*categories, setlocale_op(library, *categories, locale))
        }
        Command::LocaleName(categories) => Ok(Wish::Name(*categories)),
        Command::Install(key) => called(CategoryArgument::All, install_op(library, key)),
        Command::Post {
            cell,
            named: target,
        } => called(CategoryArgument::All, post_op(variables, *cell, target)),
        Command::Fetch { owner, cell, .. } => called(
            CategoryArgument::All,
            Ok(fetch_op(*owner, *cell)),
        ),
        Command::Pins(target) => called(CategoryArgument::All, pins_op(variables, target)),
        Command::Read(read) => Ok(Wish::Read(read)),
        Command::ReadOf { object, read } => read_of(variables, object, read),
        Command::CatOpen { name, .. } => Ok(Wish::OpenCatalog(name)),
        Command::CatGets {
            catalog,
            set,
            message,
            default,
        } => message_of(variables, catalog, *set, *message, default),
        Command::CatClose(catalog) => close_of(variables, catalog),
    }
}

/// The wish of a call, with the categories whose name it prints.
#[inline(always)]
fn called<'a>(categories: CategoryArgument, op: Result<Op<Share>, Why>) -> Result<Wish<'a>, Why>
    ensures { wished result ≡ called categories (asked op) }
{
    Ok(Wish::Call(categories, op?))
}

/// The wish of a read of what is named.
fn read_of<'a>(variables: &Variables, object: &Target, read: &'a Read) -> Result<Wish<'a>, Why>
    ensures { wished result ≡ read_of variables.now object.now read.now }
{
    Ok(Wish::ReadOf(named(variables, object)?, read))
}

/// The wish of a catgets.
fn message_of<'a>(
    variables: &Variables,
    catalog: &OpenCatalog,
    set: u32,
    message: u32,
    default: &'a ByteText,
) -> Result<Wish<'a>, Why>
    ensures { wished result ≡ message_of variables.now catalog.now set message default.now }
{
    let handle = catalog_named(variables, catalog)?;
    Ok(Wish::GetMessage(
        handle,
        Wanted {
            set,
            message,
            default,
        },
    ))
}

/// The wish of a catclose.
fn close_of<'a>(variables: &Variables, catalog: &OpenCatalog) -> Result<Wish<'a>, Why>
    ensures { wished result ≡ close_of variables.now catalog.now }
{
    Ok(Wish::CloseCatalog(catalog_named(variables, catalog)?))
}

/// The op of a duplocale.
fn dup_op(variables: &Variables, target: &Target) -> Result<Op<Share>, Why>
    ensures { asked result ≡ op_on table.Dup (named variables.now target.now) }
{
    let from = named(variables, target)?;
    Ok(Op::Dup { from })
}

/// The op of a freelocale.
fn free_op(variables: &Variables, target: &Target) -> Result<Op<Share>, Why>
    ensures { asked result ≡ op_on table.Free (named variables.now target.now) }
{
    let h = named(variables, target)?;
    Ok(Op::Free { h })
}

/// The op of a uselocale.
fn use_op(variables: &Variables, target: &Target) -> Result<Op<Share>, Why>
    ensures { asked result ≡ op_on table.Use (named variables.now target.now) }
{
    let to = named(variables, target)?;
    Ok(Op::Use { to })
}

/// The op that takes a pin.
fn hold_op(variables: &Variables, target: &Target) -> Result<Op<Share>, Why>
    ensures { asked result ≡ op_on table.Hold (named variables.now target.now) }
{
    let h = named(variables, target)?;
    Ok(Op::Hold { h })
}

/// The op that gives a pin back.
fn release_op(variables: &Variables, target: &Target) -> Result<Op<Share>, Why>
    ensures { asked result ≡ op_on table.Release (named variables.now target.now) }
{
    let h = named(variables, target)?;
    Ok(Op::Release { h })
}

/// The op that puts a handle into a cell.
fn post_op(variables: &Variables, cell: u32, target: &Target) -> Result<Op<Share>, Why>
    ensures { asked result ≡ op_on (table.Post cell) (named variables.now target.now) }
{
    let h = named(variables, target)?;
    Ok(Op::Post { cell, h })
}

/// The op that reads a cell.
fn fetch_op(owner: u32, cell: u32) -> Op<Share>
    ensures { op_of result ≡ table.Fetch owner cell }
{
    Op::Fetch { owner, cell }
}

/// The op that asks for the number of pins.
fn pins_op(variables: &Variables, target: &Target) -> Result<Op<Share>, Why>
    ensures { asked result ≡ op_on table.Pins (named variables.now target.now) }
{
    let h = named(variables, target)?;
    Ok(Op::Pins { h })
}

/// The op of a newlocale: the base is looked for first, then the mask, and then the locale.
fn new_op(
    library: &Library,
    variables: &Variables,
    bits: u32,
    locale: &ByteText,
    base: &Option<Target>,
) -> Result<Op<Share>, Why>
    ensures { asked result ≡ new_op library.now variables.now bits locale.now base.now }
{
    let base = base_named(variables, base)?;
    let mask = mask_of(bits)?;
    let names = named_numbers(library, locale, mask)?;
    Ok(Op::New { mask, names, base })
}

/// The op of a setlocale, which looks up only the categories that it sets.
fn setlocale_op(
    library: &Library,
    categories: CategoryArgument,
    locale: &ByteText,
) -> Result<Op<Share>, Why>
    ensures { asked result ≡ setlocale_op library.now categories locale.now }
{
    set_op(library, mask_of_categories(categories), locale)
}

/// The op of a setlocale of the categories of a mask.
fn set_op(library: &Library, mask: Mask, locale: &ByteText) -> Result<Op<Share>, Why>
    ensures { asked result ≡ set_op library.now mask locale.now }
{
    let names = named_numbers(library, locale, mask)?;
    Ok(Op::SetGlobal { mask, names })
}

/// The op of an install. No accepted bundle installs a key without a block.
fn install_op(library: &Library, key: &ByteText) -> Result<Op<Share>, Why>
    ensures { asked result ≡ install_op library.now key.now }
{
    match library.later(key.as_bytes()) {
        Some((name, offer)) => Ok(Op::Install { name, offer }),
        None => Err(Why::Unset),
    }
}

/// What a command names; `Unset` where it is a variable that nothing bound.
fn named(variables: &Variables, target: &Target) -> Result<Named, Why>
    ensures { result ≡ named variables.now target.now }
{
    match target {
        Target::Global => Ok(Named::Global),
        Target::Handle(handle) => Ok(Named::Of(*handle)),
        Target::Variable(variable) => {
            match variables.get(locale_variable(variable)) {
                Some(handle) => Ok(Named::Of(handle)),
                None => Err(Why::Unset),
            }
        }
    }
}

/// The handle of a catalog that a command names; `Unset` where it is a variable that nothing bound.
fn catalog_named(variables: &Variables, catalog: &OpenCatalog) -> Result<Handle, Why>
    ensures { result ≡ catalog_named variables.now catalog.now }
{
    match catalog {
        OpenCatalog::Handle(handle) => Ok(*handle),
        OpenCatalog::Variable(variable) => variables
            .get(catalog_variable(variable))
            .ok_or(Why::Unset),
    }
}

/// The base of a newlocale, which may be left out.
fn base_named(variables: &Variables, base: &Option<Target>) -> Result<Option<Named>, Why>
    ensures { result ≡ base_named variables.now base.now }
{
    match base {
        Some(target) => Ok(Some(named(variables, target)?)),
        None => Ok(None),
    }
}

/// The mask of a number; `BadMask` where it has a bit that no category has.
fn mask_of(bits: u32) -> Result<Mask, Why>
    ensures { result ≡ mask_of bits }
{
    Mask::of_bits(bits).ok_or(Why::BadMask)
}

/// The mask of the categories of a setlocale.
fn mask_of_categories(categories: CategoryArgument) -> Mask
    ensures { result ≡ categories_mask categories }
{
    match categories {
        CategoryArgument::All => Mask::all(),
        CategoryArgument::One(category) => Mask::one(category),
    }
}

/// The numbers of the locales that a name names; `NoData` where no block names one of them.
fn named_numbers(library: &Library, locale: &ByteText, mask: Mask) -> Result<[u32; 5], Why>
    ensures { result ≡ named_numbers library.now locale.now mask }
{
    match library.numbers(locale.as_bytes(), mask) {
        Ok(names) => Ok(names),
        Err(lacking) => Err(Why::Table(Refusal::NoData(lacking.category))),
    }
}
