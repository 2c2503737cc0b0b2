//! What an object is asked for.

ghost use Rattle.std.specs.Prelude.{◌≡◌, ℕ, ℤ, [], ◌∷◌, true, map, slice_get, codes, Ok, Some, IfSome};
ghost use Rattle.std.specs.List.{list_all};
ghost use Rattle.std.specs.Option.{option_copied};
ghost use Rattle.lc_base.specs.Named.{place_of};
ghost use Rattle.ctype_classes.specs.Classes.{class_answer, numbered_answer, AreClassBits};
ghost use Rattle.ctype_classes.specs.Case.{image};
ghost use Rattle.text_buffer.specs.Written.{Written};
ghost use Rattle.strfmon.specs.Money.{money_text};
ghost use Rattle.strftime_fields.specs.Answers.{whole_answer};
ghost use Rattle.strftime_fields.specs.Zones.{in_zone};
ghost use Rattle.int_format.specs.Ints.{is_number, ints, IsTextOf};
ghost use Rattle.strptime_fields.specs.Scans.{scan, answer_of};
ghost use Rattle.langinfo.specs.Items.{info};
ghost use Rattle.langinfo.specs.Conv.{conv, bare_numbers, bare_texts};
ghost use Rattle.shared_objects.specs.Objects.{ctype_in, numeric_in, monetary_in, time_in, messages_in, name_in};

use crate::view::View;
use ctype_classes::Ctype;
use int_format::{int_format_to, read_grouped};
use langinfo::{
    CONV_NUMBERS, Categories, LentCategories, lent_conv_numbers, lent_conv_text, lent_item,
};
use lc_base::{Category, Item};
use messages_cat::Messages;
use monetary_cat::Monetary;
use numeric_cat::Numeric;
use strfmon::{Amount, strfmon_to};
use strftime_fields::{Tm, strftime_to};
use strptime_fields::{Parsed, ScanFault, strptime};
use text_buffer::Unwritten;
use time_cat::Time;

impl Categories for View<'_> {
    ghost ctype_of = { ctype_in };

    ghost numeric_of = { numeric_in };

    ghost monetary_of = { monetary_in };

    ghost time_of = { time_in };

    ghost messages_of = { messages_in };

    #[inline(always)]
    fn ctype(&self) -> &Ctype {
        self.compiled(Category::Ctype).ctype()
    }

    #[inline(always)]
    fn numeric(&self) -> &Numeric {
        self.compiled(Category::Numeric).numeric()
    }

    #[inline(always)]
    fn monetary(&self) -> &Monetary {
        self.compiled(Category::Monetary).monetary()
    }

    #[inline(always)]
    fn time(&self) -> &Time {
        self.compiled(Category::Time).time()
    }

    #[inline(always)]
    fn messages(&self) -> &Messages {
        self.compiled(Category::Messages).messages()
    }
}

impl View<'_> {
    /// The categories, lent.
    pub fn categories(&self) -> LentCategories<'_>
        ensures ctype { result.ctype.now ≡ ctype_in self.now }
        ensures numeric { result.numeric.now ≡ numeric_in self.now }
        ensures monetary { result.monetary.now ≡ monetary_in self.now }
        ensures time { result.time.now ≡ time_in self.now }
        ensures messages { result.messages.now ≡ messages_in self.now }
    {
        LentCategories {
            ctype: self.ctype(),
            numeric: self.numeric(),
            monetary: self.monetary(),
            time: self.time(),
            messages: self.messages(),
        }
    }

    /// Whether a character is of a class, where there is such a class (XSH iswctype).
    #[inline(always)]
    pub fn is(&self, class: &[u8], value: u32) -> Option<bool>
        ensures { result ≡ class_answer (ctype_in self.now).classes class.now value }
    {
        self.ctype().is(class, value)
    }

    /// The number of a class, where there is such a class (XSH wctype).
    #[inline(always)]
    pub fn class_number(&self, class: &[u8]) -> Option<usize>
        ensures number { result ≡ place_of (ctype_in self.now).classes class.now }
        ensures same { IfSome result (λ n. (w : ℕ) → numbered_answer (ctype_in self.now).classes n w ≡ class_answer (ctype_in self.now).classes class.now w) }
    {
        self.ctype().class_number(class)
    }

    /// Whether a character is of the class with a number, where there is such a class (XSH
    /// iswctype).
    #[inline(always)]
    pub fn is_in(&self, number: usize, value: u32) -> Option<bool>
        ensures { result ≡ numbered_answer (ctype_in self.now).classes number value }
    {
        self.ctype().is_in(number, value)
    }

    /// The first 64 classes that have a character: the bit of a class is that of its number, the lowest
    /// first.
    #[inline(always)]
    pub fn classes_of(&self, value: u32) -> u64
        ensures { AreClassBits (ctype_in self.now).classes value result }
    {
        self.ctype().classes_of(value)
    }

    /// The name of the charset.
    pub fn codeset(&self) -> &[u8]
        ensures { result.now ≡ (ctype_in self.now).codeset }
    {
        self.ctype().codeset()
    }

    /// The upper case of a character (XSH towupper).
    #[inline(always)]
    pub fn upper(&self, value: u32) -> u32
        ensures { result ≡ image (ctype_in self.now).upper value }
    {
        self.ctype().upper(value)
    }

    /// The lower case of a character (XSH towlower).
    #[inline(always)]
    pub fn lower(&self, value: u32) -> u32
        ensures { result ≡ image (ctype_in self.now).lower value }
    {
        self.ctype().lower(value)
    }

    /// What an item is (XSH nl_langinfo), lent.
    #[inline(always)]
    pub fn item(&self, item: Item) -> &[u8]
        ensures { result.now ≡ info (ctype_in self.now) (numeric_in self.now) (monetary_in self.now) (time_in self.now) (messages_in self.now) item }
    {
        lent_item(self, item)
    }

    /// A text of localeconv by its number, in the order of the standard's page (XSH localeconv), lent.
    #[inline(always)]
    pub fn conv_text(&self, number: u32) -> Option<&[u8]>
        ensures { option_copied result ≡ slice_get (bare_texts (conv (numeric_in self.now) (monetary_in self.now)).texts) number }
    {
        lent_conv_text(self, number as usize)
    }

    /// The numbers of localeconv, in the order of the standard's page (XSH localeconv).
    #[inline(always)]
    pub fn conv_numbers(&self) -> [u8; CONV_NUMBERS]
        ensures { result ≡ bare_numbers (conv (numeric_in self.now) (monetary_in self.now)).numbers }
    {
        lent_conv_numbers(self.monetary())
    }

    /// The name of the locale that has a category: the one that was named, also where it copies (XSH
    /// getlocalename_l).
    pub fn name(&self, category: Category) -> &[u8]
        ensures { result.now ≡ name_in self.now category }
    {
        self.compiled(category).name()
    }

    /// The whole number that a text spells as `%'d` prints it in this locale. A number that `%'d`
    /// prints so is read back.
    pub fn read_number(&self, text: &[u8]) -> Option<i128>
        ensures read { IfSome result (λ v. IsTextOf (numeric_in self.now) v text.now) }
        ensures back { (v : ℤ) → is_number v ≡ true → ints (numeric_in self.now) (codes "%'d") (v ∷ []) ≡ Ok text.now → result ≡ Some v }
    {
        read_grouped(self.numeric(), text)
    }

    /// Writes the text of amounts of money to the front of a buffer, and says how many bytes it has (XSH
    /// strfmon).
    pub fn strfmon_to(
        &self,
        buffer: &mut [u8],
        format: &[u8],
        amounts: &[Amount],
    ) -> Result<usize, Unwritten>
        ensures { Written buffer.old buffer.new result (money_text (monetary_in self.now) format.now amounts.now) }
    {
        strfmon_to(buffer, self.monetary(), format, amounts)
    }

    /// Writes the text of a time, with the name of its zone, to the front of a buffer, and says how many
    /// bytes it has (XSH strftime).
    pub fn strftime_to(
        &self,
        buffer: &mut [u8],
        format: &[u8],
        tm: &Tm,
        zone: &[u8],
    ) -> Result<usize, Unwritten>
        ensures { Written buffer.old buffer.new result (whole_answer (time_in self.now) (in_zone tm.now zone.now) format.now) }
    {
        strftime_to(buffer, self.time(), format, tm, zone)
    }

    /// Writes the text of whole numbers to the front of a buffer, and says how many bytes it has (XSH
    /// fprintf).
    pub fn int_format_to(
        &self,
        buffer: &mut [u8],
        format: &[u8],
        numbers: &[i128],
    ) -> Result<usize, Unwritten>
        requires { list_all is_number numbers.now ≡ true }
        ensures { Written buffer.old buffer.new result (ints (numeric_in self.now) format.now numbers.now) }
    {
        int_format_to(buffer, self.numeric(), format, numbers)
    }

    /// The fields of a time that a text has, and the index of the first byte that is not read (XSH
    /// strptime).
    pub fn strptime(&self, format: &[u8], text: &[u8]) -> Result<(Parsed, usize), ScanFault>
        ensures { answer_of result ≡ scan (time_in self.now) format.now text.now }
    {
        strptime(self.time(), format, text)
    }
}
