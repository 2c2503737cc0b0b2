//! The files of a command, as blocks.

use lc_base::{Block, ByteText, List};
use std::alloc::{AllocError, Global};
use std::mem;
use tool_messages::base_name;

/// A file by its path, with the number of its first line among the lines of all files.
#[derive(Drop)]
pub struct FilePath {
    pub path: ByteText,
    pub first_line: u32,
}

/// The blocks of files. The lines of a file have numbers behind those of the files before it.
pub struct Sources {
    pub charmaps: List<Block>,
    pub locales: List<Block>,
    pub paths: Vec<FilePath>,
    /// The number of the first line of the next file.
    pub next_line: u32,
    /// Where the files of copied locales are looked for.
    pub folders: Vec<ByteText>,
}

impl Drop for Sources {
    fn drop(self) {
        let Sources {
            charmaps: _,
            locales: _,
            paths: _,
            next_line: _,
            folders: _,
        } = self;
    }
}

impl Sources {
    /// No files.
    pub fn new(alloc: Global) -> Sources {
        Sources {
            charmaps: List::of(Vec::new(alloc)),
            locales: List::of(Vec::new(alloc)),
            paths: Vec::new(alloc),
            next_line: 1,
            folders: Vec::new(alloc),
        }
    }

    /// Adds a file with a charmap.
    pub fn add_charmap(
        &mut self,
        alloc: Global,
        path: &str,
        text: ByteText,
    ) -> Result<(), AllocError> {
        let block = self.block_of(alloc, path, b"", text)?;
        push_block(alloc, &mut self.charmaps, block)
    }

    /// Adds a file with the source of a locale.
    pub fn add_locale(
        &mut self,
        alloc: Global,
        path: &str,
        charset: &[u8],
        text: ByteText,
    ) -> Result<(), AllocError> {
        let block = self.block_of(alloc, path, charset, text)?;
        push_block(alloc, &mut self.locales, block)
    }

    /// The block of a file, whose lines are numbered.
    fn block_of(
        &mut self,
        alloc: Global,
        path: &str,
        charset: &[u8],
        text: ByteText,
    ) -> Result<Block, AllocError> {
        let first_line = self.next_line;
        self.next_line = line_behind(first_line, text.as_bytes());
        let name = ByteText::of(alloc, base_name(path.as_bytes()))?;
        let charset = ByteText::of(alloc, charset)?;
        let path = ByteText::of(alloc, path.as_bytes())?;
        self.paths.push(FilePath { path, first_line })?;
        Ok(Block {
            name,
            charset,
            first_line,
            text,
        })
    }
}

/// Adds a block to a list.
fn push_block(alloc: Global, list: &mut List<Block>, block: Block) -> Result<(), AllocError> {
    let mut blocks = mem::replace(list, List::of(Vec::new(alloc))).into_vec();
    blocks.push(block)?;
    *list = List::of(blocks);
    Ok(())
}

/// The number of the first line behind a text, with one between that belongs to its end.
fn line_behind(first_line: u32, text: &[u8]) -> u32 {
    let mut line = first_line.saturating_add(2);
    for byte in text {
        if *byte == b'\n' {
            line = line.saturating_add(1);
        }
    }
    line
}
