//! The numbers of localeconv, as C has them.

ghost use Rattle.std.specs.Prelude.{◌≡◌};
ghost use Rattle.c_values.specs.Conv.{lconv_of};

use langinfo::CONV_NUMBERS;
use shared_objects::View;

/// How numbers and amounts are written: the numbers, in the order of the standard's page. C has
/// `lobj_lconv` for it.
#[repr(C)]
#[derive(Clone, Copy)]
pub struct LobjLconv {
    pub numbers: [u8; CONV_NUMBERS],
}

/// The numbers of a locale.
#[inline(always)]
pub fn lconv_of(view: &View<'_>) -> LobjLconv
    ensures { result ≡ lconv_of view.now }
{
    LobjLconv {
        numbers: view.conv_numbers(),
    }
}
