//! The first argument of setlocale.

use lc_base::Category;

/// The categories that a setlocale names (XSH setlocale).
#[derive(Clone, Copy, PartialEq, Eq)]
pub enum CategoryArgument {
    /// `LC_ALL`.
    All,
    One(Category),
}
