//! The words of replies and refusals.

ghost use Rattle.std.specs.Prelude.{◌≡◌, map, Some};
ghost use Rattle.lc_base.specs.declared.category.Category.{Category};
ghost use Rattle.lc_base.specs.Categories.{category_name};
ghost use Rattle.time_cat.specs.declared.tm.TmField.{TmField};
ghost use Rattle.lc_base.specs.Tables.{first_named};
ghost use Rattle.script_out.specs.Output.{field_text};

use handle_table::Refusal;
use lc_base::{Category, first_named};
use script_out::Why;
use time_cat::TmField;

/// What stands behind the first word of a reply.
#[derive(Clone, Copy)]
pub enum ReplyForm {
    Handle,
    Freed,
    Was,
    Is,
    Held,
    Released,
    Name,
    Installed,
    Posted,
    Pins,
    Text,
    Parsed,
    Conv,
    Yes,
    No,
    Value,
    Opened,
    Closed,
    Ended,
    Refused,
}

/// What stands behind the first word of the reason of a refused command.
#[derive(Clone, Copy)]
pub enum WhyForm {
    /// The word says it all.
    Whole(Why),
    NoData,
    TmRange,
    BadFormat,
    MissingAmount,
    MissingNumber,
    Mismatch,
}

const REPLIES: [(&[u8], ReplyForm); 20] = [
    (b"handle", ReplyForm::Handle),
    (b"freed", ReplyForm::Freed),
    (b"was", ReplyForm::Was),
    (b"is", ReplyForm::Is),
    (b"held", ReplyForm::Held),
    (b"released", ReplyForm::Released),
    (b"name", ReplyForm::Name),
    (b"installed", ReplyForm::Installed),
    (b"posted", ReplyForm::Posted),
    (b"pins", ReplyForm::Pins),
    (b"text", ReplyForm::Text),
    (b"parsed", ReplyForm::Parsed),
    (b"conv", ReplyForm::Conv),
    (b"yes", ReplyForm::Yes),
    (b"no", ReplyForm::No),
    (b"value", ReplyForm::Value),
    (b"opened", ReplyForm::Opened),
    (b"closed", ReplyForm::Closed),
    (b"ended", ReplyForm::Ended),
    (b"refused", ReplyForm::Refused),
];

const WHYS: [(&[u8], WhyForm); 18] = [
    (b"Unset", WhyForm::Whole(Why::Unset)),
    (b"BadMask", WhyForm::Whole(Why::BadMask)),
    (b"NoData", WhyForm::NoData),
    (
        b"GlobalHandle",
        WhyForm::Whole(Why::Table(Refusal::GlobalHandle)),
    ),
    (b"NeverMade", WhyForm::Whole(Why::Table(Refusal::NeverMade))),
    (b"Stale", WhyForm::Whole(Why::Table(Refusal::Stale))),
    (b"TooMany", WhyForm::Whole(Why::Table(Refusal::TooMany))),
    (
        b"AlreadyHeld",
        WhyForm::Whole(Why::Table(Refusal::AlreadyHeld)),
    ),
    (b"NotHeld", WhyForm::Whole(Why::Table(Refusal::NotHeld))),
    (b"EmptyCell", WhyForm::Whole(Why::Table(Refusal::EmptyCell))),
    (b"NoClass", WhyForm::Whole(Why::NoClass)),
    (b"TmRange", WhyForm::TmRange),
    (b"BadFormat", WhyForm::BadFormat),
    (b"MissingAmount", WhyForm::MissingAmount),
    (b"MissingNumber", WhyForm::MissingNumber),
    (b"Mismatch", WhyForm::Mismatch),
    (b"TooBig", WhyForm::Whole(Why::TooBig)),
    (b"NoCatalog", WhyForm::Whole(Why::NoCatalog)),
];

const CATEGORY_NAMES: [(&[u8], Category); 5] = [
    (b"LC_CTYPE", Category::Ctype),
    (b"LC_NUMERIC", Category::Numeric),
    (b"LC_MONETARY", Category::Monetary),
    (b"LC_TIME", Category::Time),
    (b"LC_MESSAGES", Category::Messages),
];

const FIELDS: [(&[u8], TmField); 9] = [
    (b"year", TmField::Year),
    (b"mon", TmField::Mon),
    (b"mday", TmField::Mday),
    (b"hour", TmField::Hour),
    (b"min", TmField::Min),
    (b"sec", TmField::Sec),
    (b"wday", TmField::Wday),
    (b"yday", TmField::Yday),
    (b"offset", TmField::Offset),
];

/// The form of the replies that begin with this word.
pub fn reply_form(word: &[u8]) -> Option<ReplyForm>
    ensures { result ≡ first_named (map (λ row. (row.0.now, row.1)) REPLIES) word.now }
{
    first_named(&REPLIES, word)
}

/// The form of the reasons that begin with this word.
pub fn why_form(word: &[u8]) -> Option<WhyForm>
    ensures { result ≡ first_named (map (λ row. (row.0.now, row.1)) WHYS) word.now }
{
    first_named(&WHYS, word)
}

/// The category of this name.
pub fn category(word: &[u8]) -> Option<Category>
    ensures { (k : Category) → category_name k ≡ word.now → result ≡ Some k }
{
    first_named(&CATEGORY_NAMES, word)
}

/// The field of a time that has this name.
pub fn field(word: &[u8]) -> Option<TmField>
    ensures { (f : TmField) → field_text f ≡ word.now → result ≡ Some f }
{
    first_named(&FIELDS, word)
}
