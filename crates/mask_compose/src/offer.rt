//! What locale names stand for.

ghost use Rattle.std.specs.Prelude.{◌≡◌};

use crate::object::Object;
use crate::part::Part;
use lc_base::Mask;
use std::marker::Model;

/// What a locale name stands for: an object, and the categories that it has.
pub struct Offer<P: Part> {
    /// The parts; in a category that is not available that of the POSIX locale.
    pub object: Object<P>,
    /// The categories that the locale has.
    pub available: Mask,
}

impl<P: Part> Drop for Offer<P> {
    fn drop(self) {
        let Offer {
            object: _,
            available: _,
        } = self;
    }
}

impl<P: Part> Model for Offer<P> {
    ghost use Rattle.mask_compose.specs.Offer.{Offered};

    ghost Value = { Offered };

    ghost view = { λ o. record { object = o.object; available = o.available } };
}

impl<P: Part> Offer<P> {
    /// The offer once more, without taking memory.
    pub fn share(&self) -> Offer<P>
        ensures { result ≡ self.now }
    {
        Offer {
            object: self.object.share(),
            available: self.available,
        }
    }
}
