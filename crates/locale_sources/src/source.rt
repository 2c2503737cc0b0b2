//! A locale's source.

use charset::Charset;
use keywords::Section;
use lc_base::List;

/// A locale's source: its key where it is a later version, its name, its charset and its sections.
#[derive(Drop)]
pub struct Source<'a> {
    pub key: Option<&'a [u8]>,
    pub name: &'a [u8],
    pub charset: &'a Charset,
    pub sections: List<Section>,
}
