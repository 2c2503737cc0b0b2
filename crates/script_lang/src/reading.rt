//! What the lines of a bundle gave so far.

use crate::bundle::Bundle;
use lc_base::{Block, ByteText};

/// What a block is.
#[derive(Drop)]
pub enum BlockKind {
    Charmap,
    Locale,
    /// A later version of a locale, with its key.
    Later(ByteText),
    Catalog,
}

/// A block whose end was not read yet.
#[derive(Drop)]
pub struct Opened {
    pub kind: BlockKind,
    pub block: Block,
}

/// What the lines of a bundle gave so far.
#[derive(Drop)]
pub struct Reading {
    pub bundle: Bundle,
    /// The number of the current thread.
    pub current: Option<u32>,
    /// The block that was begun and not closed.
    pub begun: Option<Opened>,
}
