use crate::listed::Listed;

/// Which charset it is.
#[derive(Drop)]
pub enum Kind {
    Utf8,
    Posix,
    Listed(Listed),
}
