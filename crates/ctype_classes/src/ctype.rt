//! The category.

ghost use Rattle.std.specs.Prelude.{◌≡◌, ℕ, List, unwrap_or, IfOk, IfSome};
ghost use Rattle.lc_base.specs.Reading.{Gives};
ghost use Rattle.charset.specs.CodedSet.{set_name};
ghost use Rattle.ctype_classes.specs.Case.{image, first_image, upper_pairs, lower_pairs};
ghost use Rattle.lc_base.specs.Named.{place_of};
ghost use Rattle.ctype_classes.specs.Classes.{class_answer, numbered_answer, AreClassBits};
ghost use Rattle.ctype_classes.specs.Members.{membership};
ghost use Rattle.ctype_classes.specs.Excluded.{is_in, IsFirstExcluded, AreAllApart, Names};
ghost use Rattle.ctype_classes.specs.Ctype.{ctype_with, ctype_values, posix_values};

use crate::case::{lower_pairs, map_of, upper_pairs};
use crate::class_bits::{class_bits, low_answer, low_bits};
use crate::classes::{Classes, twelve_classes};
use crate::exclusions::check_exclusions;
use crate::first_lines::KeywordList;
use crate::lists::classes_of;
use charset::Charset;
use class_ranges::PagedMap;
use keywords::Entry;
use lc_base::{ByteText, List, Place, TextFault};
use std::alloc::{AllocError, Global};
use std::marker::Model;

/// The character classes and case maps of a locale.
pub struct Ctype {
    codeset: ByteText,
    classes: Classes,
    upper: PagedMap,
    lower: PagedMap,
    low: Vec<u64>,
}

impl Drop for Ctype {
    fn drop(self) {
        let Ctype {
            codeset: _,
            classes: _,
            upper: _,
            lower: _,
            low: _,
        } = self;
    }
}

impl Model for Ctype {
    ghost use Rattle.ctype_classes.specs.CtypeValues.{CtypeValues};

    ghost Value = { CtypeValues };

    ghost view = { λ c. record { codeset = c.codeset; classes = c.classes; upper = c.upper; lower = c.lower } };

    ghost use Rattle.ctype_classes.specs.Classes.{AreLowBits};

    ghost invariant = { λ c. AreLowBits c.classes c.low.items };
}

impl Ctype {
    /// The category with these classes.
    fn with(
        alloc: Global,
        charset: &Charset,
        list: &KeywordList<'_>,
        classes: Classes,
    ) -> Result<Ctype, AllocError>
        ensures { IfOk result (λ c. c ≡ ctype_with charset.now list.now classes) }
    {
        let upper = upper_pairs(alloc, list)?;
        let lower = lower_pairs(alloc, list, &upper)?;
        let low = low_bits(alloc, &classes)?;
        Ok(Ctype {
            codeset: ByteText::of(alloc, charset.name())?,
            classes,
            upper: map_of(alloc, &upper)?,
            lower: map_of(alloc, &lower)?,
            low,
        })
    }

    /// The category that a keyword list defines.
    #[tactic(auto, unfolding(crate::specs::Ctype::ctype_values))]
    fn of_list(
        alloc: Global,
        charset: &Charset,
        section: Place,
        list: &KeywordList<'_>,
    ) -> Result<Ctype, TextFault>
        ensures is { Gives (λ c. c) result (ctype_values list.now section charset.now) }
        ensures excluded { Names (IsFirstExcluded (is_in charset.now list.now)) section result }
        ensures apart { IfOk result (λ c. AreAllApart (is_in charset.now list.now)) }
    {
        let classes = classes_of(alloc, charset, list)?;
        check_exclusions(section, &classes)?;
        Ok(Ctype::with(alloc, charset, list, classes)?)
    }

    /// The category that a keyword list defines over a charset. The header of its section stands at
    /// `section`.
    ///
    /// The refusal is the first fault of a line: `DigitsNotTen` at an operand of `digit`, `NotCased`
    /// at a case pair with a character that is neither in `upper` nor in `lower`, `BadClassName` at
    /// an operand of `charclass`. Else it is `Excluded` at the header, with the first two classes
    /// that have a common member, and the least one.
    pub fn build(
        alloc: Global,
        entries: &List<Entry>,
        section: Place,
        charset: &Charset,
    ) -> Result<Ctype, TextFault>
        ensures is { Gives (λ c. c) result (ctype_values entries.now section charset.now) }
        ensures excluded { Names (IsFirstExcluded (is_in charset.now entries.now)) section result }
        ensures apart { IfOk result (λ c. AreAllApart (is_in charset.now entries.now)) }
        ensures members { IfOk result (λ c. (class : List ℕ) (w : ℕ) → class_answer c.classes class w ≡ membership charset.now entries.now class w) }
        ensures upper { IfOk result (λ c. (w : ℕ) → image c.upper w ≡ unwrap_or (first_image (upper_pairs entries.now) w) w) }
        ensures lower { IfOk result (λ c. (w : ℕ) → image c.lower w ≡ unwrap_or (first_image (lower_pairs entries.now) w) w) }
    {
        let list = KeywordList::of(alloc, entries.as_slice())?;
        let ctype = Ctype::of_list(alloc, charset, section, &list)?;
        Ok(ctype)
    }

    /// The category of the POSIX locale: that of an empty list over the charset `POSIX`.
    #[tactic(auto, unfolding(crate::specs::Ctype::posix_values))]
    pub fn posix(alloc: Global) -> Result<Ctype, AllocError>
        ensures { IfOk result (λ c. c ≡ posix_values) }
    {
        let charset = Charset::portable(alloc)?;
        let list = KeywordList::of(alloc, &[])?;
        let classes = twelve_classes(alloc, &charset, &list)?;
        Ctype::with(alloc, &charset, &list, classes)
    }

    /// Whether a character with this wide value is in the class (XSH iswctype). `None` exactly where
    /// the locale has no such class.
    pub fn is(&self, class: &[u8], w: u32) -> Option<bool>
        ensures { result ≡ class_answer self.now.classes class.now w }
    {
        let members = self.classes.get(class)?;
        Some(members.contains(w))
    }

    /// The number of a class, from 0 (XSH wctype). `None` exactly where the locale has no such class.
    #[tactic(auto, using(crate::proofs::ClassLaw::numbered_alike))]
    pub fn class_number(&self, class: &[u8]) -> Option<usize>
        ensures number { result ≡ place_of self.now.classes class.now }
        ensures same { IfSome result (λ n. (w : ℕ) → numbered_answer self.now.classes n w ≡ class_answer self.now.classes class.now w) }
    {
        self.classes.place(class)
    }

    /// Whether a character with this wide value is in the class with a number (XSH iswctype). `None`
    /// exactly where no class of the locale has the number.
    pub fn is_in(&self, number: usize, w: u32) -> Option<bool>
        ensures { result ≡ numbered_answer self.now.classes number w }
    {
        match low_answer(&self.classes, &self.low, number, w) {
            Some(is) => Some(is),
            None => {
                let members = self.classes.at(number)?;
                Some(members.contains(w))
            }
        }
    }

    /// The classes that have a character with this wide value, of the first 64 of the locale: a bit
    /// each, which is 0 where no class has its number. The bit of a class is that of its number, the
    /// lowest first. A class with a number from 64 on, which a locale may declare, has no bit: ask
    /// `is_in`.
    pub fn classes_of(&self, w: u32) -> u64
        ensures { AreClassBits self.now.classes w result }
    {
        match self.low.get(w as usize) {
            Some(bits) => *bits,
            None => class_bits(&self.classes, w),
        }
    }

    /// The upper case of a character: itself where no pair has it (XSH towupper).
    pub fn upper(&self, w: u32) -> u32
        ensures { result ≡ image self.now.upper w }
    {
        self.upper.image(w)
    }

    /// The lower case of a character: itself where no pair has it (XSH towlower).
    pub fn lower(&self, w: u32) -> u32
        ensures { result ≡ image self.now.lower w }
    {
        self.lower.image(w)
    }

    /// The name of the code set (XSH nl_langinfo, `CODESET`).
    pub fn codeset(&self) -> &[u8]
        ensures { result.now ≡ self.now.codeset }
    {
        self.codeset.as_bytes()
    }
}
