//! What a table keeps of the calls so far.

ghost use Rattle.std.specs.Prelude.{◌≡◌, ◌+◌, ◌-◌, ◌<◌, ◌^◌, length, unwrap_or, slice_index_or, replicate, true, [], None, IfSome, IfOk};
ghost use Rattle.handle_table.specs.Entry.{Setting as SettingData, History};
ghost use Rattle.handle_table.specs.Shelf.{opening_offer};
ghost use Rattle.handle_table.specs.History.{made, live, holding, pins, free_row, selection, posted, object};
ghost use Rattle.handle_table.specs.Rows.{row_at};
ghost use Rattle.handle_table.specs.Kept.{RowsStand, ObjectsStand, SelectionsStand, CellsStand, GlobalStands};
ghost use Rattle.handle_table.specs.Effects.{selected, after_make, after_rebuild, after_free, after_use, after_hold, after_release, after_set, after_install, after_post, after_end};

use crate::setting::Setting;
use crate::{MAX_THREADS, Row, numbers, rows};
use generations::Grid;
use global_locale::Global as GlobalLocale;
use lc_base::{CELLS, Handle, Mask, Named};
use mask_compose::{Object, Offer, Part};
use std::alloc::{AllocError, Global};
use std::marker::Model;

/// What a table keeps: as much for each row, thread, cell and locale name, however many calls came.
pub struct Kept<P: Part> {
    rows: Grid<Row>,
    objects: Grid<Object<P>>,
    selections: Vec<Named>,
    cells: Grid<Option<Handle>>,
    installed: Vec<Option<Offer<P>>>,
    installs: u32,
    global: GlobalLocale<P>,
}

impl<P: Part> Drop for Kept<P> {
    fn drop(self) {
        let Kept {
            rows: _,
            objects: _,
            selections: _,
            cells: _,
            installed: _,
            installs: _,
            global: _,
        } = self;
    }
}

impl<P: Part> Model for Kept<P> {
    ghost use Rattle.handle_table.specs.Kept.{KeptData, IsShaped};

    ghost Value = { KeptData };

    ghost view = { λ k. record {
      rows = k.rows;
      objects = k.objects;
      selections = k.selections.items;
      cells = k.cells;
      installed = k.installed.items;
      installs = k.installs;
      global = k.global;
    } };

    ghost invariant = { λ k. IsShaped k.rows k.objects k.cells k.selections.items };
}

/// So many times the same value.
fn filled<T: Copy>(alloc: Global, value: T, count: usize) -> Result<Vec<T>, AllocError>
    ensures { IfOk result (λ values. values.items ≡ replicate count value) }
{
    let mut values = Vec::with_capacity(alloc, count)?;
    for _i in 0..count {
        values.push(value)?;
    }
    Ok(values)
}

/// So many times the same object.
fn copies<P: Part>(
    alloc: Global,
    object: &Object<P>,
    count: usize,
) -> Result<Vec<Object<P>>, AllocError>
    ensures { IfOk result (λ objects. length objects.items ≡ count) }
{
    let mut objects = Vec::with_capacity(alloc, count)?;
    for _i in 0..count {
        objects.push(object.share())?;
    }
    Ok(objects)
}

/// For so many names, that nothing was installed.
fn nothing_installed<P: Part>(
    alloc: Global,
    count: usize,
) -> Result<Vec<Option<Offer<P>>>, AllocError>
    ensures { IfOk result (λ installed. installed.items ≡ replicate count None) }
{
    let mut installed = Vec::with_capacity(alloc, count)?;
    for _i in 0..count {
        installed.push(None)?;
    }
    Ok(installed)
}

/// The rows of each thread, in which nothing was made, with a place for the object of each.
fn empty_rows<P: Part>(
    alloc: Global,
    setting: &Setting<P>,
) -> Result<(Grid<Row>, Grid<Object<P>>), AllocError>
    ensures rows { IfOk result (λ parts. RowsStand setting.now [] parts.0) }
    ensures objects { IfOk result (λ parts. ObjectsStand setting.now [] parts.1) }
{
    let threads = setting.threads;
    let count = threads as usize * setting.rows as usize;
    let rows = filled(alloc, Row::EMPTY, count)?;
    let objects = copies(alloc, &setting.posix().object, count)?;
    Ok((
        Grid::of(threads, setting.rows, rows),
        Grid::of(threads, setting.rows, objects),
    ))
}

/// For each thread, that it selects the global locale, and that nothing stands in its cells.
fn nothing_selected<P: Part>(
    alloc: Global,
    setting: &Setting<P>,
) -> Result<(Vec<Named>, Grid<Option<Handle>>), AllocError>
    ensures selections { IfOk result (λ parts. SelectionsStand setting.now [] parts.0.items) }
    ensures cells { IfOk result (λ parts. CellsStand setting.now [] parts.1) }
{
    let threads = setting.threads;
    let selections = filled(alloc, Named::Global, threads as usize)?;
    let cells = filled(alloc, None, threads as usize * CELLS as usize)?;
    Ok((selections, Grid::of(threads, CELLS, cells)))
}

/// The global locale at first, which is the POSIX locale.
fn first_global<P: Part>(setting: &Setting<P>) -> GlobalLocale<P>
    ensures { GlobalStands setting.now [] result }
{
    GlobalLocale::new(setting.posix().object.share())
}

impl<P: Part> Kept<P> {
    ghost use Rattle.handle_table.specs.Kept.{Keeps};
    ghost use Rattle.handle_table.specs.Accepted.{SameShape};
    ghost use Rattle.handle_table.specs.Table.{IsTable};

    /// What is kept before any call. All memory is taken here.
    pub fn new(alloc: Global, setting: &Setting<P>) -> Result<Kept<P>, AllocError>
        ensures keeps { IfOk result (λ kept. Keeps setting.now [] kept) }
        ensures table { IfOk result (λ kept. IsTable setting.now kept 0) }
    {
        let installed = nothing_installed(alloc, setting.opening.len())?;
        let (rows, objects) = empty_rows(alloc, setting)?;
        let (selections, cells) = nothing_selected(alloc, setting)?;
        Ok(Kept {
            rows,
            objects,
            selections,
            cells,
            installed,
            installs: 0,
            global: first_global(setting),
        })
    }

    /// The global locale.
    pub fn global(&self) -> &GlobalLocale<P>
        ensures { result.now ≡ self.now.global }
    {
        &self.global
    }

    /// Whether the handle was made.
    pub fn is_made(&self, h: Handle) -> bool
        ensures { (c : SettingData) (H : History) → Keeps c H self.now → result ≡ made H h }
    {
        self.rows.is_made(numbers(h))
    }

    /// Whether the handle is live.
    pub fn is_live(&self, h: Handle) -> bool
        ensures { (c : SettingData) (H : History) → Keeps c H self.now → result ≡ live H h }
    {
        rows::is_live(&self.rows, h)
    }

    /// Whether the thread holds the handle.
    pub fn is_held(&self, who: u32, h: Handle) -> bool
        requires few { who < MAX_THREADS }
        requires who { who < self.now.rows.lines }
        ensures { (c : SettingData) (H : History) → Keeps c H self.now → result ≡ holding H who h }
    {
        rows::is_held(&self.rows, who, h)
    }

    /// The pins of the handle.
    pub fn pins(&self, h: Handle) -> u32
        ensures { (c : SettingData) (H : History) → Keeps c H self.now → result ≡ pins c H h }
    {
        rows::pins(&self.rows, h)
    }

    /// The least free row of the thread.
    pub fn free_row(&self, setting: &Setting<P>, who: u32) -> Option<u32>
        requires { who < self.now.rows.lines }
        ensures row { (H : History) → Keeps setting.now H self.now → result ≡ free_row setting.now H who }
        ensures inside { IfSome result (λ r. r < self.now.rows.width) }
        ensures makes { IfSome result (λ r. (row_at self.now.rows who r).makes < 4294967295) }
    {
        self.rows.free_row(setting.generations, who)
    }

    /// What the thread selects.
    pub fn selected(&self, who: u32) -> Named
        requires { who < self.now.rows.lines }
        ensures { (c : SettingData) (H : History) → Keeps c H self.now → result ≡ selection H who }
    {
        self.selections[who as usize]
    }

    /// What stands in the thread's cell.
    pub fn posted(&self, owner: u32, number: u32) -> Option<Handle>
        requires owner { owner < self.now.rows.lines }
        requires number { number < CELLS }
        ensures { (c : SettingData) (H : History) → Keeps c H self.now → result ≡ posted H owner number }
    {
        *self.cells.at(owner, number)
    }

    /// What the locale name stands for: what was installed last, else what it stood for at first.
    pub fn offer(&self, setting: &Setting<P>, name: u32) -> Offer<P>
        ensures { result ≡ unwrap_or (slice_index_or self.now.installed name None) (opening_offer setting.now name) }
    {
        if (name as usize) < self.installed.len()
            && let Some(offer) = &self.installed[name as usize]
        {
            return offer.share();
        }
        setting.opening_offer(name).share()
    }

    /// The object of a live handle.
    pub fn object(&self, setting: &Setting<P>, h: Handle) -> Object<P>
        ensures { (H : History) → Keeps setting.now H self.now → live H h ≡ true → result ≡ object setting.now H h }
    {
        if h.owner < self.objects.lines() && h.row < self.objects.width() {
            return self.objects.at(h.owner, h.row).share();
        }
        setting.posix().object.share()
    }

    /// Puts one more object into the thread's row, and gives its handle.
    pub fn make(&mut self, who: u32, row: u32, object: Object<P>) -> Handle
        requires who { who < self.old.rows.lines }
        requires row { row < self.old.rows.width }
        requires makes { (row_at self.old.rows who row).makes < 4294967295 }
        ensures after { self.new ≡ after_make who row object self.old }
        ensures handle { result ≡ record { owner = who; row = row; generation = (row_at self.old.rows who row).makes + 1 } }
    {
        let generation = rows::make(&mut self.rows, who, row);
        self.objects.put(who, row, object);
        Handle {
            owner: who,
            row,
            generation,
        }
    }

    /// Gives the handle another object.
    pub fn rebuild(&mut self, h: Handle, object: Object<P>)
        ensures after { h.owner < self.old.rows.lines → h.row < self.old.rows.width → self.new ≡ after_rebuild h object self.old }
        ensures shape { SameShape self.old self.new }
    {
        if h.owner < self.objects.lines() && h.row < self.objects.width() {
            self.objects.put(h.owner, h.row, object);
        }
    }

    /// Frees the object that is named.
    pub fn free(&mut self, named: Named)
        ensures { self.new ≡ after_free named self.old }
    {
        rows::free(&mut self.rows, named);
    }

    /// Selects what is named for the thread, and gives what it selected before.
    pub fn select(&mut self, who: u32, named: Named) -> Named
        requires { who < self.old.rows.lines }
        ensures after { self.new ≡ after_use who named self.old }
        ensures former { result ≡ selected who self.old }
    {
        let former = self.selections[who as usize];
        rows::unpin(&mut self.rows, former);
        rows::pin(&mut self.rows, named);
        self.selections[who as usize] = named;
        former
    }

    /// Opens a Hold of the thread.
    pub fn hold(&mut self, who: u32, named: Named)
        requires { who < MAX_THREADS }
        ensures { self.new ≡ after_hold who named self.old }
    {
        rows::open(&mut self.rows, who, named);
    }

    /// Closes a Hold of the thread.
    pub fn release(&mut self, who: u32, named: Named)
        requires { who < MAX_THREADS }
        ensures { self.new ≡ after_release who named self.old }
    {
        rows::close(&mut self.rows, who, named);
    }

    /// Changes the categories of the mask of the global locale, and gives its new version.
    pub fn set_global(&mut self, mask: Mask, picks: &Object<P>) -> u32
        requires { self.old.global.version < 2 ^ 32 - 1 }
        ensures after { self.new ≡ after_set mask picks.now self.old }
        ensures version { result ≡ self.old.global.version + 1 }
    {
        self.global.set(mask, picks)
    }

    /// Lets the name stand for the offer, and gives the number of installs.
    pub fn install(&mut self, name: u32, offer: Offer<P>) -> u32
        requires name { name < length self.old.installed }
        requires installs { self.old.installs < 2 ^ 32 - 1 }
        ensures after { self.new ≡ after_install name offer self.old }
        ensures installs { result ≡ self.old.installs + 1 }
    {
        self.installed[name as usize] = Some(offer);
        self.installs += 1;
        self.installs
    }

    /// Puts the handle that is named into the thread's cell.
    pub fn post(&mut self, who: u32, number: u32, named: Named)
        requires who { who < self.old.rows.lines }
        requires number { number < CELLS }
        ensures { self.new ≡ after_post who number named self.old }
    {
        let handle = match named {
            Named::Global => None,
            Named::Of(h) => Some(h),
        };
        self.cells.put(who, number, handle);
    }

    /// Ends the thread: it selects and holds nothing any more.
    pub fn end(&mut self, who: u32)
        requires lines { who < self.old.rows.lines }
        requires few { who < MAX_THREADS }
        ensures { self.new ≡ after_end who self.old }
    {
        let former = self.selections[who as usize];
        rows::unpin(&mut self.rows, former);
        rows::close_all(&mut self.rows, who);
        self.selections[who as usize] = Named::Global;
    }
}
