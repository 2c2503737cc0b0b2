//! Blocks of the sizes that readers take.

ghost use Rattle.std.specs.Prelude.{◌≡◌, true, All, IsTrue};
ghost use Rattle.std.specs.List.{list_all};
ghost use Rattle.lc_base.specs.Blocks.{IsSized};
ghost use Rattle.tool_files.specs.Library.{is_sized};

use lc_base::Block;

/// Whether readers take a block.
pub fn is_sized(block: &Block) -> bool
    ensures is { result ≡ is_sized block.now }
    ensures sized { IsTrue result → IsSized block.now }
{
    block.text.as_bytes().len() < 2_147_483_648 && block.first_line < 2_147_483_648
}

/// Whether readers take each block.
#[tactic(auto, using(crate::proofs::SizeLemmas::none_sized, crate::proofs::SizeLemmas::one_more_sized))]
pub fn are_sized(blocks: &[Block]) -> bool
    ensures is { result ≡ list_all is_sized blocks.now }
    ensures sized { IsTrue result → All IsSized blocks.now }
{
    match blocks {
        [] => true,
        [first, rest @ ..] => is_sized(first) && are_sized(rest),
    }
}
