//! The keywords of `LC_TIME`, and what their operands are (XBD 7.3.5.2).

ghost use Rattle.std.specs.Prelude.{◌≡◌};
ghost use Rattle.time_cat.specs.Keywords.{takes_of, fixed_count};

use keywords::{Rule, rule_of};
use lc_base::Category;

/// What the operands of a keyword are, if it is one.
#[tactic(auto, unfolding(crate::specs::Keywords::takes_of))]
pub fn takes_of(keyword: &[u8]) -> Option<Rule>
    ensures { result ≡ takes_of keyword.now }
{
    rule_of(Category::Time, keyword)
}

/// How many texts there are, where the keyword fixes it.
pub fn fixed_count(takes: Rule) -> Option<usize>
    ensures { result ≡ fixed_count takes }
{
    match takes {
        Rule::Names(count) => Some(count),
        Rule::Format(_) => Some(1),
        _ => None,
    }
}
