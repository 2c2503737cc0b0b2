//! The numbers of handles.

ghost use Rattle.std.specs.Prelude.{◌≡◌};
ghost use Rattle.handle_table.specs.Numbers.{object_handles};

use generations::Numbers;
use lc_base::Handle;

/// The numbers of a handle.
pub fn numbers(h: Handle) -> Numbers
    ensures { result ≡ object_handles.numbers h }
{
    Numbers {
        owner: h.owner,
        row: h.row,
        generation: h.generation,
    }
}
