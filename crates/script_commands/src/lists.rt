//! Lists of blocks and names.

ghost use Rattle.std.specs.Prelude.{◌≡◌, ◌<◌, ◌^◌, length, IfSome, position};
ghost use Rattle.std.specs.Str.{bytes_eq};
ghost use Rattle.script_commands.specs.Known.{has_block, has_key};

use lc_base::{Block, ByteText, Later, List};

/// Whether one of the blocks has the name.
pub fn has_block(blocks: &List<Block>, name: &[u8]) -> bool
    ensures { result ≡ has_block blocks.now name.now }
{
    blocks
        .as_slice()
        .iter()
        .any(|block| block.name.as_bytes() == name)
}

/// Whether one of the later versions has the key.
pub fn has_key(later: &List<Later>, key: &[u8]) -> bool
    ensures { result ≡ has_key later.now key.now }
{
    later
        .as_slice()
        .iter()
        .any(|version| version.key.as_bytes() == key)
}

/// The number of a thread among the names of threads.
pub fn number_of(threads: &List<ByteText>, name: &[u8]) -> Option<u32>
    requires { length threads.now < 2 ^ 32 }
    ensures is { result ≡ position (λ t. bytes_eq t name.now) threads.now }
    ensures within { IfSome result (λ n. n < length threads.now) }
{
    let names = threads.as_slice();
    for (i, thread) in names.iter().enumerate() {
        if thread.as_bytes() == name {
            return Some(i as u32);
        }
    }
    None
}
