//! What is lent by a pointer, to be read.

ghost use Rattle.std.specs.Prelude.{◌≡◌, ℕ};
ghost use denote.Struct.Lending.{lent_at};
ghost use Rattle.locale_objects.specs.Lending.{lending_owns};

use std::marker::Model;

/// What is lent by a pointer, for as long as this value lives. Nothing of it can be written.
#[derive(Drop)]
pub struct Peek<T> {
    pub(crate) at: *const T,
    pub ghost value: { T },
    pub ghost life: { ℕ },
    pub ghost part: { ℕ },
}

impl<T> Model for Peek<T> {
    ghost also_owns = { λ l. lending_owns T.row l.at l.life l.part l.value };

    ghost also_shares = { λ l _ κ. lent_at T.row l.at l.value κ };
}

impl<T> Peek<T> {
    /// The value.
    #[inline(always)]
    pub fn get(&self) -> &T
        ensures { result.now ≡ self.now.value }
    {
        unsafe { &*self.at }
    }
}
