//! Locale categories and masks of them.

ghost use Rattle.std.specs.Prelude.{◌≡◌, ◌<◌, ◌↔◌, true, IsNone, IfSome};
ghost use Rattle.lc_base.specs.declared.category.Category.{Category};
ghost use Rattle.lc_base.specs.Categories.{category_index, category_name, category_named, number_for};
ghost use Rattle.lc_base.specs.Mask.{category_bit, includes};

use std::marker::Model;

/// A locale category without `LC_COLLATE` (POSIX.1-2017, XBD 7.3).
#[derive(Clone, Copy, Debug, PartialEq, Eq)]
pub enum Category {
    /// `LC_CTYPE`: character classes and case.
    Ctype,
    /// `LC_NUMERIC`: numbers that are no money.
    Numeric,
    /// `LC_MONETARY`: money.
    Monetary,
    /// `LC_TIME`: dates and times.
    Time,
    /// `LC_MESSAGES`: answers of a user.
    Messages,
}

/// The five categories, in the order of their bits.
pub const CATEGORIES: [Category; 5] = [
    Category::Ctype,
    Category::Numeric,
    Category::Monetary,
    Category::Time,
    Category::Messages,
];

impl Category {
    /// The bit of the category in a mask: 1, 2, 4, 8 and 16 in the order of the variants.
    pub fn bit(self) -> u32
        ensures { result ≡ category_bit self }
    {
        match self {
            Category::Ctype => 1,
            Category::Numeric => 2,
            Category::Monetary => 4,
            Category::Time => 8,
            Category::Messages => 16,
        }
    }

    /// The place of the category in their order, from 0.
    pub fn index(self) -> usize
        ensures is { result ≡ category_index self }
        ensures small { result < 5 }
    {
        match self {
            Category::Ctype => 0,
            Category::Numeric => 1,
            Category::Monetary => 2,
            Category::Time => 3,
            Category::Messages => 4,
        }
    }

    /// The name of the category, `LC_CTYPE` and the like.
    pub fn name(self) -> &'static [u8]
        ensures { result.now ≡ category_name self }
    {
        match self {
            Category::Ctype => b"LC_CTYPE",
            Category::Numeric => b"LC_NUMERIC",
            Category::Monetary => b"LC_MONETARY",
            Category::Time => b"LC_TIME",
            Category::Messages => b"LC_MESSAGES",
        }
    }
}

/// The category of a name, `LC_CTYPE` and the like.
pub fn category_named(name: &[u8]) -> Option<Category>
    ensures { result ≡ category_named name.now }
{
    CATEGORIES
        .iter()
        .copied()
        .find(|category| category.name() == name)
}

/// The number for a category, of five in their order.
pub fn number_for(numbers: &[u32; 5], category: Category) -> u32
    ensures { result ≡ number_for numbers.now category }
{
    numbers[category.index()]
}

/// A set of categories, as newlocale and setlocale take one (XSH newlocale). The empty set is allowed.
#[derive(Clone, Copy, PartialEq, Eq)]
pub struct Mask {
    bits: u32,
}

impl Model for Mask {
    ghost use Rattle.std.specs.Prelude.{ℕ, ◌<◌};

    ghost Value = { ℕ };

    ghost view = { λ m. m.bits };

    ghost invariant = { λ m. m.bits < 32 };

    ghost inverse = { λ n. record { bits = n } };
}

impl Mask {
    /// The mask with these bits, or `None` where a bit is set that no category has.
    pub fn of_bits(bits: u32) -> Option<Mask>
        ensures mask { IfSome result (λ m. m ≡ bits) }
        ensures unknown_bit { IsNone result ↔ (31 < bits) }
    {
        if bits > 31 {
            return None;
        }
        Some(Mask { bits })
    }

    /// The mask of all five categories.
    pub fn all() -> Mask
        ensures bits { result ≡ 31 }
        ensures each { (c : Category) → includes result c ≡ true }
    {
        Mask { bits: 31 }
    }

    /// The mask of one category alone.
    pub fn one(category: Category) -> Mask
        ensures bits { result ≡ category_bit category }
        ensures has { includes result category ≡ true }
        ensures alone { (c : Category) → includes result c ≡ true → c ≡ category }
    {
        Mask {
            bits: category.bit(),
        }
    }

    /// Whether the category is in the mask.
    pub fn has(&self, category: Category) -> bool
        ensures { result ≡ includes self.now category }
    {
        self.bits / category.bit() % 2 == 1
    }

    /// The mask as a number below 32.
    pub fn bits(&self) -> u32
        ensures same { result ≡ self.now }
        ensures small { result < 32 }
    {
        self.bits
    }
}
