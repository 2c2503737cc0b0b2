//! Logical lines of locale sources and charmaps, with the places of their bytes.
#![tactic(auto)]

mod atom;
mod cells;
mod field;
mod head;
mod line;
mod lines;
mod operand;
mod pieces;
mod row;
mod shape;
mod signs;
mod spelling;
mod store;
mod text;
mod words;

pub use atom::Atom;
pub use cells::Atoms;
pub use field::{Field, fields};
pub use head::ends_head;
pub use line::{Line, Operand, OperandPiece};
pub use lines::{Lines, split, split_front};
pub use operand::tokens;
pub use pieces::{PieceRef, Pieces, Walk};
pub use row::{LineStart, LogicalLine, advanced};
pub use signs::{Kind, Signs};
pub use spelling::have_spellings;
pub use store::Join;
pub use words::{Word, blanks, next_word};
