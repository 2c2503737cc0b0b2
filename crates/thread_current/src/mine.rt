//! A thread's own side: its seat, what it has selected, and its cached global object.

ghost use Rattle.std.specs.Prelude.{◌≡◌, ◌↔◌, Some};
ghost use Rattle.std.specs.Option.{option_copied, IsNone};
ghost use Rattle.lc_base.specs.declared.handle.Named.TheVariants as names;
ghost use Rattle.turn_gate.specs.declared.entry.Terms.{Terms};
ghost use Rattle.handle_table.specs.Entry.{Setting};
ghost use Rattle.handle_table.specs.History.{sets, global_at};
ghost use Rattle.thread_current.specs.Mine.{IsUnused};
ghost use Rattle.thread_current.specs.Thread.{thread_of, selected, own_object, IsInOrder};

use crate::locales::Locales;
use lc_base::Named;
use mask_compose::{Object, Part};
use std::marker::Model;
use turn_gate::Seat;

/// A thread at a shared table: its seat, what it has selected with the object that it took up, and
/// the global object that it read last.
///
/// It goes with one thread at a time, and can be sent to another. Its reads wait for nobody.
pub struct Mine<P: Part> {
    pub(crate) seat: Seat<Locales<P>>,
    pub(crate) named: Named,
    pub(crate) own: Option<Object<P>>,
    pub(crate) version: u32,
    pub(crate) object: Object<P>,
}

impl<P: Part> Drop for Mine<P> {
    fn drop(self) {
        let Mine {
            seat: _,
            named: _,
            own: _,
            version: _,
            object: _,
        } = self;
    }
}

impl<P: Part> Model for Mine<P> {
    ghost use Rattle.thread_current.specs.Thread.{Thread, thread_of};
    ghost use Rattle.thread_current.specs.Mine.{IsMine};

    ghost Value = { Thread };

    ghost view = { λ m. thread_of m.version m.seat };

    ghost invariant = { λ m. IsMine (thread_of m.version m.seat) m.named m.own m.object };
}

impl<P: Part> Mine<P> {
    // The thread of a seat that has made no call, with the POSIX locale's object.
    pub(crate) fn first(seat: Seat<Locales<P>>, posix: Object<P>) -> Mine<P>
        requires { IsUnused posix seat }
        ensures { result ≡ thread_of 0 seat }
    {
        Mine {
            seat,
            named: Named::Global,
            own: None,
            version: 0,
            object: posix,
        }
    }

    // The seat alone.
    pub(crate) fn into_seat(self) -> Seat<Locales<P>>
        ensures thread { self ≡ thread_of self.cached result }
        ensures in_order { (terms : Terms Setting) → self.terms ≡ Some terms → IsInOrder terms self }
    {
        let Mine {
            seat,
            named: _,
            own: _,
            version: _,
            object: _,
        } = self;
        seat
    }

    // Keeps the global object that was read now, with its version.
    pub(crate) fn read(&mut self, version: u32, object: Object<P>)
        requires version { version ≡ sets self.old.seen }
        requires object { (terms : Terms Setting) → self.old.terms ≡ Some terms → object ≡ global_at terms.setting self.old.seen version }
        ensures { self.new ≡ record self.old { cached = version } }
    {
        self.version = version;
        self.object = object;
    }

    /// The object that the thread took up when it selected it (XSH uselocale). `None` exactly where
    /// it has the global locale selected.
    pub fn own(&self) -> Option<&Object<P>>
        ensures own { option_copied result ≡ own_object self.now }
        ensures none { IsNone result ↔ (selected self.now ≡ names.Global) }
    {
        self.own.as_ref()
    }

    /// What the thread has selected.
    pub fn named(&self) -> Named
        ensures { result ≡ selected self.now }
    {
        self.named
    }

    /// The global object that the thread read last.
    pub fn newest(&self) -> &Object<P>
        ensures { (terms : Terms Setting) → self.now.terms ≡ Some terms → result.now ≡ global_at terms.setting self.now.seen self.now.cached }
    {
        &self.object
    }
}
