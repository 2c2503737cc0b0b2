//! Locale sources, read in order.

ghost use Rattle.std.specs.Prelude.{◌≡◌, ◌+◌, length, map, All, IfOk};
ghost use Rattle.lc_base.specs.Reading.{Gives};
ghost use Rattle.locale_sources.specs.Seen.{source};
ghost use Rattle.lc_base.specs.Blocks.{IsSized};
ghost use Rattle.category_store.specs.Blocks.{by_place};
ghost use Rattle.category_store.specs.Sources.{source_of, sources_of};
ghost use Rattle.category_store.specs.Seen.{placed};

use crate::blocks::{Placed, by_place};
use crate::charsets::Charsets;
use lc_base::{Block, Later, List, TextFault};
use locale_reader::read_locale;
use locale_sources::Source;
use std::alloc::Global;

/// Reads the source of a block.
fn read_source<'a>(
    alloc: Global,
    charsets: &'a Charsets,
    from: Placed<'a>,
) -> Result<Source<'a>, TextFault>
    requires { IsSized from.block.now }
    ensures { Gives source result (source_of charsets.now (placed from.entry)) }
{
    let block = from.block;
    let charset = charsets.get(block.charset.as_bytes());
    let read = read_locale(alloc, block.text.as_bytes(), block.first_line, charset)?;
    Ok(Source {
        key: from.key,
        name: block.name.as_bytes(),
        charset,
        sections: read.sections,
    })
}

/// Reads the sources of blocks, in their order.
fn read_sources<'a>(
    alloc: Global,
    charsets: &'a Charsets,
    blocks: &[Placed<'a>],
) -> Result<Vec<Source<'a>>, TextFault>
    requires { All (λ p. IsSized p.block.now) blocks.now }
    ensures sources { Gives (λ v. map source v.items) result (sources_of charsets.now (map placed blocks.now)) }
    ensures count { IfOk result (λ v. length v.items ≡ length blocks.now) }
{
    let mut sources = Vec::new(alloc);
    for block in blocks {
        sources.push(read_source(alloc, charsets, *block)?)?;
    }
    Ok(sources)
}

/// Reads the locale sources of a bundle and of its later versions, by the places of their blocks.
pub fn read_blocks<'a>(
    alloc: Global,
    charsets: &'a Charsets,
    locales: &'a List<Block>,
    later: &'a List<Later>,
) -> Result<Vec<Source<'a>>, TextFault>
    requires locales { All IsSized locales.now }
    requires later { All (λ l. IsSized l.block) later.now }
    ensures sources { Gives (λ v. map source v.items) result (sources_of charsets.now (by_place locales.now later.now)) }
    ensures count { IfOk result (λ v. length v.items ≡ length locales.now + length later.now) }
{
    let blocks = by_place(alloc, locales, later)?;
    read_sources(alloc, charsets, blocks.as_slice())
}
