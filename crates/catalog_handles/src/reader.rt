//! A thread's own side.

ghost use Rattle.std.specs.Prelude.{◌≡◌};
ghost use Rattle.catalog_handles.specs.Reader.{IsUnused, reader_of};

use crate::stamped::Stamped;
use mask_compose::Part;
use std::marker::Model;
use turn_gate::Seat;

/// A thread at shared catalogs. It goes with one thread at a time, and can be sent to another.
pub struct Reader<B: Part> {
    pub(crate) seat: Seat<Stamped<B>>,
}

impl<B: Part> Drop for Reader<B> {
    fn drop(self) {
        let Reader { seat: _ } = self;
    }
}

impl<B: Part> Model for Reader<B> {
    ghost use Rattle.catalog_handles.specs.Reader.{ReaderData, reader_of, IsOrderly};

    ghost Value = { ReaderData };

    ghost view = { λ r. reader_of B.number r.seat };

    ghost invariant = { λ r. IsOrderly (reader_of B.number r.seat) };
}

impl<B: Part> Reader<B> {
    // The thread of a seat that has made no call.
    pub(crate) fn first(seat: Seat<Stamped<B>>) -> Reader<B>
        requires { IsUnused seat }
        ensures { result ≡ reader_of B.number seat }
    {
        Reader { seat }
    }
}
