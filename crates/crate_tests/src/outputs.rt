//! Outputs that are read back, and others that no lines print as.

ghost use Rattle.std.specs.Prelude.{IfOk};
ghost use Rattle.output_reader.specs.Lines.{AreThreadNames};

use lc_base::{ByteText, LinePart, List, Place, Reason, TextFault};
use output_reader::read_output;
use script_out::print;
use script_words::is_thread_name;
use std::alloc::Global;
use std::process::Abort;
use std::test::Fail;

/// The names of the threads: A and Bo.
fn names(alloc: Global) -> Result<List<ByteText>, TextFault>
    ensures { IfOk result (λ names. AreThreadNames names) }
{
    let first = ByteText::of(alloc, b"A")?;
    let second = ByteText::of(alloc, b"Bo")?;
    if is_thread_name(first.as_bytes()) && is_thread_name(second.as_bytes()) {
        Ok(List::of(vec![in alloc; first, second]?))
    } else {
        Err(TextFault::Memory)
    }
}

/// What the lines print as that are read from an output. Those of the tests are short: `read_output`
/// takes no text of 2^31 bytes.
fn printed_again(alloc: Global, text: &[u8]) -> Result<ByteText, TextFault> {
    if text.len() > 65_536 {
        return Err(TextFault::Memory);
    }
    let names = names(alloc)?;
    let lines = read_output(alloc, text, &names)?;
    Ok(print(alloc, &lines, &names)?)
}

/// Texts by the rules of the output: that of no lines, that of a whole script, and lines with every other
/// reply.
const OUTPUTS: [&[u8]; 9] = [
    b"",
    br#"1 A 1 0 - handle A.0.1
1 A 2 1 - was GLOBAL
1 A 3 - - is A.0.1
1 A 4 2 - held
1 A 5 3 - pins 2
1 A 6 4 - posted
1 Bo 1 5 - handle A.0.1
2 A 7 6 - freed
2 A 8 7 - was A.0.1
2 A 9 - - is GLOBAL
2 Bo 2 8 g1 name de
2 Bo 3 - g1 name LC_CTYPE=C;LC_NUMERIC=de;LC_MONETARY=C;LC_TIME=C;LC_MESSAGES=C
2 Bo 4 9 - installed 1
3 A 10 10 - released
3 A 11 11 - ended
3 Bo 5 12 - ended
"#,
    br#"1 Bo 1 - g0 text ""
1 Bo 2 - g0 text " 1.234,5 "
1 Bo 3 - - text "\"\\\x00\x0a\x1f\x7f"
1 Bo 4 0,1 - text "~"
"#,
    b"1 A 1 - g2 text \"\x80\xe2\x82\xac\xff\"\n",
    br#"1 A 1 - g0 conv "." "" "" "" "" "" "" "" "" "" 127 127 127 127 127 127 127 127 127 127 127 127 127 127
1 A 2 1,2 - conv "," "." "3;127" "EUR " "\"" "," " " "3;2" "" "-" 2 2 1 0 0 1 2 3 4 127 255 0 10 99
"#,
    br#"1 A 1 - g0 parsed 2021 3 13 23 59 60 6 71 19
1 A 2 - - parsed - - - - - - - - 0
1 A 3 - - parsed -1 - 1 - 2 - 0 - 5
1 A 4 - - parsed 0 12 - 0 - 0 - 365 8
1 Bo 1 - g0 yes
1 Bo 2 - g0 no
1 Bo 3 2,3 - value 0
1 Bo 4 - - value 97
"#,
    br#"1 A 1 - - refused Unset
1 A 2 - - refused BadMask
1 A 3 - - refused NoData LC_CTYPE
1 A 4 0 - refused NoData LC_NUMERIC
1 A 5 - - refused NoData LC_MONETARY
1 A 6 - - refused NoData LC_TIME
1 A 7 - - refused NoData LC_MESSAGES
1 A 8 1 - refused GlobalHandle
1 A 9 2 - refused NeverMade
1 A 10 3 - refused Stale
1 A 11 4 - refused TooMany
1 A 12 5 - refused AlreadyHeld
1 A 13 6 - refused NotHeld
1 A 14 7 - refused EmptyCell
1 A 15 - g0 refused NoClass
1 A 16 - g0 refused TmRange year
1 A 17 - g0 refused TmRange mon
1 A 18 - g0 refused TmRange mday
1 A 19 - g0 refused TmRange hour
1 A 20 - g0 refused TmRange min
1 A 21 - g0 refused TmRange sec
1 A 22 - g0 refused TmRange wday
1 A 23 - g0 refused TmRange yday
1 A 24 - g0 refused TmRange offset
1 A 25 - g0 refused BadFormat 0
1 A 26 - - refused MissingAmount 3
1 A 27 8,9 - refused MissingNumber 10
1 A 28 - - refused Mismatch 1023
1 A 29 - - refused TooBig
"#,
    br#"1 A 1 c0 - opened A.0.1
1 A 2 c1 - text "not found"
1 A 3 c2 - closed
1 A 4 c3 - refused Stale
1 A 5 - g0 refused NoCatalog
1 Bo 1 c4 g1 opened Bo.15.65535
1 Bo 2 - - refused NoCatalog
"#,
    b"4294967295 Bo 4294967295 18446744073709551615 g4294967295 handle Bo.4294967295.4294967295
1 A 1 - - parsed -2147483648 255 255 255 255 255 255 65535 18446744073709551615
1 A 2 - - value 4294967295
",
];

fn check_read_back(rt: &impl Abort, alloc: Global, outputs: &[&[u8]]) -> Result<(), TextFault> {
    for text in outputs {
        assert_eq!(rt; printed_again(alloc, text)?.as_bytes(), *text);
    }
    Ok(())
}

#[test]
fn printed_lines_are_read_back(rt: HostRuntime) -> Result<(), Fail> {
    check_read_back(&rt, rt.alloc(), &OUTPUTS)?;
    Ok(())
}

/// An output, and the number of its first line that no value prints as.
type Faulty = (&'static [u8], u32);

const FAULTY: [Faulty; 32] = [
    (b"01 A 1 - - held\n", 1),
    (b"1 A 1 - - held\n1 A 2 07 - held\n", 2),
    (b"1 A 1 - - handle A.0.01\n", 1),
    (b"1 A 1 - - held\n1 A 2 - - released", 2),
    (b"1 A 1 - - held\n1 A 2 - - ended\n\n", 3),
    (b"\n1 A 1 - - held\n", 1),
    (b"1 A 1 - - held\n1 C 1 - - held\n2 C 2 - - held\n", 2),
    (b"1 B 1 - - held\n", 1),
    (b"1 bo 1 - - held\n", 1),
    (b"4294967296 A 1 - - held\n", 1),
    (b"1 A 4294967296 - - held\n", 1),
    (b"1 A 1 18446744073709551616 - held\n", 1),
    (b"1 A 1 0,18446744073709551616 - held\n", 1),
    (b"1 A 1 - g4294967296 yes\n", 1),
    (b"1 A 1 - - handle A.4294967296.1\n", 1),
    (b"1 A 1 - - parsed 2147483648 - - - - - - - 0\n", 1),
    (b"1 A 1 - - parsed - 256 - - - - - - 0\n", 1),
    (b"1 A 1 - - parsed -0 - - - - - - - 0\n", 1),
    (b"1 A 1 - - conv \"\" 256\n", 1),
    (b"1 A 1 - - refused BadFormat 18446744073709551616\n", 1),
    (b"1 A 1 - - text \"\\x41\"\n", 1),
    (b"1 A 1 - - text \"\\x0A\"\n", 1),
    (b"1 A 1 - - text \"\\n\"\n", 1),
    (b"1 A 1 - - text \"\t\"\n", 1),
    (b"1 A 1 - - text \"\"\"\n", 1),
    (b"1 A 1 - - text \"\n", 1),
    (b"1 A  1 - - held\n", 1),
    (b"1 A 1 - - pins  1\n", 1),
    (b"1 A 1 - - held \n", 1),
    (b"1 A 1 - - handle C.0.1\n", 1),
    (b"1 A 1 - - was B.0.1\n", 1),
    (b"1 A 1 - - refused NoData LC_ALL\n", 1),
];

/// The refusal of the line of this number.
fn fault_at(line: u32) -> TextFault {
    TextFault::At(
        Place { line, column: 1 },
        Reason::BadLine(LinePart::Argument),
    )
}

fn check_refused(rt: &impl Abort, alloc: Global, rows: &[Faulty]) {
    for (row, (text, line)) in rows.iter().enumerate() {
        let found = printed_again(alloc, text).err();
        assert_eq!(rt; found, Some(fault_at(*line)), "row {row}");
    }
}

#[test]
fn first_unprinted_line_is_refused(rt: HostRuntime) {
    check_refused(&rt, rt.alloc(), &FAULTY);
}
