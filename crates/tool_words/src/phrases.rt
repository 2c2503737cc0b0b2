//! What is wrong at a place, as a phrase around what stands there.

use lc_base::{LinePart, Reason};

/// A phrase.
#[derive(Clone, Copy)]
pub enum Phrase {
    Alone(&'static [u8]),
    /// In front of what stands at the place, and behind it.
    Around(&'static [u8], &'static [u8]),
}

/// The phrase of a reason.
pub fn phrase_of(reason: Reason) -> Phrase {
    match reason {
        Reason::BadLine(part) => line_phrase(part),
        Reason::OverLimit(_) => Phrase::Alone(b"this is more than the limit allows"),
        Reason::NameTwice => Phrase::Around(b"", b" is given a second time"),
        Reason::NoCharmap => Phrase::Around(b"there is no charmap ", b""),
        Reason::NoNative => Phrase::Around(b"there is no locale ", b""),
        Reason::NoThread => Phrase::Around(b"no `.thread` line names the thread of ", b""),
        Reason::NoLater => Phrase::Around(b"no `.later` line has the key ", b""),
        Reason::BadHeader | Reason::BadEncoding | Reason::RangeBackward | Reason::PortableMoved =>
            charmap_phrase(reason),
        Reason::BadEscape | Reason::OpenString | Reason::OpenName => token_phrase(reason),
        Reason::SectionTwice
        | Reason::KeywordTwice
        | Reason::CopyNotAlone
        | Reason::UnknownCharacter
        | Reason::CopyCycle => line_fault_phrase(reason),
        _ => value_phrase(reason),
    }
}

fn line_phrase(part: LinePart) -> Phrase {
    match part {
        LinePart::Directive => {
            Phrase::Around(
                b"",
                b" begins no directive with just the words that it wants",
            )
        }
        LinePart::Command => Phrase::Around(b"", b" is no command"),
        LinePart::Argument => Phrase::Around(b"", b" is not the word that is wanted here"),
        LinePart::Thread => Phrase::Around(b"no thread is current at ", b""),
    }
}

fn charmap_phrase(reason: Reason) -> Phrase {
    match reason {
        Reason::BadHeader => {
            Phrase::Around(b"", b" begins no header line, or has a wrong operand")
        }
        Reason::BadEncoding => {
            Phrase::Around(
                b"",
                b" is not the name, the range or the encoding that is wanted here",
            )
        }
        Reason::RangeBackward => Phrase::Around(b"", b" is no range that runs forward"),
        _ => Phrase::Around(b"", b" has another code than its own"),
    }
}

fn token_phrase(reason: Reason) -> Phrase {
    match reason {
        Reason::BadEscape => Phrase::Around(b"", b" begins with no byte"),
        Reason::OpenString => Phrase::Around(b"the text ", b" has no quote at its end"),
        _ => Phrase::Around(b"the name ", b" has no `>` at its end"),
    }
}

fn line_fault_phrase(reason: Reason) -> Phrase {
    match reason {
        Reason::SectionTwice => Phrase::Around(b"this is a second section ", b""),
        Reason::KeywordTwice => Phrase::Around(b"", b" stands in the section a second time"),
        Reason::CopyNotAlone => Phrase::Around(b"", b" is a second line of a section that copies"),
        Reason::UnknownCharacter => { Phrase::Around(b"the charset lacks a character of ", b"") }
        _ => Phrase::Around(b"the copies that begin with ", b" never end"),
    }
}

fn value_phrase(reason: Reason) -> Phrase {
    match reason {
        Reason::BadClassName => Phrase::Around(b"", b" is taken, or is no name of a class"),
        Reason::DigitsNotTen => Phrase::Around(b"", b" is none of the ten digits"),
        Reason::NotCased => {
            Phrase::Around(b"a character of ", b" is neither in `upper` nor in `lower`")
        }
        Reason::FormatRank => {
            Phrase::Around(
                b"",
                b" has a conversion that stands for this format or for one above",
            )
        }
        Reason::TooManyDigits => Phrase::Around(b"", b" is the 101st text"),
        Reason::BadFormat(_) => Phrase::Around(b"", b" begins with no conversion"),
        Reason::BadMessage => Phrase::Around(b"", b" begins no line of a message catalog"),
        _ => Phrase::Alone(b"this is not allowed here"),
    }
}
