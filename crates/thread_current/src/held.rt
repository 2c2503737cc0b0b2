//! Holds.

ghost use Rattle.std.specs.Prelude.{◌≡◌};

use lc_base::Handle;
use mask_compose::{Object, Part};
use std::marker::Model;

/// An open hold of an object, with the object as it was when the hold began.
///
/// It is given back by `Shared::release`. One that is dropped makes no entry, and its hold stays open.
pub struct Held<P: Part> {
    pub(crate) handle: Handle,
    pub(crate) object: Object<P>,
}

impl<P: Part> Drop for Held<P> {
    fn drop(self) {
        let Held {
            handle: _,
            object: _,
        } = self;
    }
}

impl<P: Part> Model for Held<P> {
    ghost use Rattle.thread_current.specs.Mine.{HeldData};

    ghost Value = { HeldData };

    ghost view = { λ h. record { handle = h.handle; object = h.object } };
}

impl<P: Part> Held<P> {
    /// The handle of the object.
    pub fn handle(&self) -> Handle
        ensures { result ≡ self.now.handle }
    {
        self.handle
    }

    /// The object as it was when the hold began, whatever came after.
    pub fn object(&self) -> &Object<P>
        ensures { result.now ≡ self.now.object }
    {
        &self.object
    }
}
