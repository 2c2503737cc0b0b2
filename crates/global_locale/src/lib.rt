//! The global locale: an object that setlocale changes, with a version that counts the changes.
#![tactic(auto)]

ghost use Rattle.std.specs.Prelude.{◌≡◌, ◌+◌, ◌<◌, ◌^◌, ◌-◌};
ghost use Rattle.mask_compose.specs.Parts.{composed};

use lc_base::Mask;
use mask_compose::{Object, Part, compose};
use std::marker::Model;

/// The global locale (XSH setlocale).
pub struct Global<P: Part> {
    version: u32,
    object: Object<P>,
}

impl<P: Part> Drop for Global<P> {
    fn drop(self) {
        let Global {
            version: _,
            object: _,
        } = self;
    }
}

impl<P: Part> Model for Global<P> {
    ghost use Rattle.global_locale.specs.Versioned.{Versioned};

    ghost Value = { Versioned };

    ghost view = { λ g. record { version = g.version; object = g.object } };
}

impl<P: Part> Global<P> {
    /// The global locale before any change: this object, at version 0.
    pub fn new(object: Object<P>) -> Global<P>
        ensures { result ≡ record { version = 0; object = object } }
    {
        Global { version: 0, object }
    }

    /// How many times it was changed.
    pub fn version(&self) -> u32
        ensures { result ≡ self.now.version }
    {
        self.version
    }

    /// The object as it is now.
    pub fn peek(&self) -> &Object<P>
        ensures { result.now ≡ self.now.object }
    {
        &self.object
    }

    /// Changes the categories of the mask to those of `picks`, and gives the new version. Takes no
    /// memory.
    pub fn set(&mut self, mask: Mask, picks: &Object<P>) -> u32
        requires { self.old.version < 2 ^ 32 - 1 }
        ensures version { result ≡ self.old.version + 1 }
        ensures changed { self.new ≡ record { version = self.old.version + 1; object = composed mask picks.now self.old.object } }
    {
        self.object = compose(mask, picks, &self.object);
        self.version += 1;
        self.version
    }
}
