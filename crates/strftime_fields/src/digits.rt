//! Numbers as they are written.

ghost use Rattle.std.specs.Prelude.{◌≡◌, ◌≤◌, ◌<◌, ◌%◌, ◌+◌, length, decimal};
ghost use Rattle.std.specs.Fmt.{signed_decimal};
ghost use Rattle.time_cat.specs.Shown.{last_digit, two, three, four, laid_out, spaced};
ghost use Rattle.strftime_fields.specs.Appending.{Appends, Adds};
ghost use Rattle.strftime_fields.specs.Kept.{Holds};

use crate::output::{Output, put, put_here};
use crate::stop::Stop;
use itoa::Buffer;
use time_cat::Layout;

/// The last two digits of each number from 0 to 255.
static PAIRS: [u8; 512] =
    *b"00010203040506070809101112131415161718192021222324252627282930313233343536373839404142434445464748495051525354555657585960616263646566676869707172737475767778798081828384858687888990919293949596979899000102030405060708091011121314151617181920212223242526272829303132333435363738394041424344454647484950515253545556575859606162636465666768697071727374757677787980818283848586878889909192939495969798990001020304050607080910111213141516171819202122232425262728293031323334353637383940414243444546474849505152535455";

/// The last decimal digit.
#[inline(always)]
pub fn last_digit(n: u32) -> u8
    ensures { result ≡ last_digit n }
{
    b'0' + (n % 10) as u8
}

/// The number of the last two digits.
#[inline(always)]
fn below_hundred(n: u32) -> u32
    ensures is { result ≡ n % 100 }
    ensures small { result < 100 }
{
    if n < 100 { n } else { n % 100 }
}

/// The last two digits of a small number.
#[tactic(auto, using(crate::proofs::Pairs::two_of_pair))]
#[inline(always)]
pub fn pair(n: u8) -> [u8; 2]
    ensures { result ≡ two n }
{
    let from = n as usize * 2;
    [PAIRS[from], PAIRS[from + 1]]
}

/// The last two digits.
#[tactic(auto, using(crate::proofs::Pairs::two_of_rest))]
#[inline(always)]
pub fn two(n: u32) -> [u8; 2]
    ensures { result ≡ two n }
{
    pair(below_hundred(n) as u8)
}

/// The last three digits.
#[inline(always)]
pub fn three(n: u32) -> [u8; 3]
    ensures { result ≡ three n }
{
    [last_digit(n / 100), last_digit(n / 10), last_digit(n)]
}

/// Adds the last two digits.
#[inline(always)]
pub fn put_two<O: Output>(out: &mut O, lent: &mut [u8], max: usize, n: u32) -> Result<(), Stop>
    requires short { length (O.text out.old lent.old) ≤ max }
    requires holds { Holds O.kind max (length lent.old) }
    ensures { Appends O.kind max (O.text out.old lent.old) (two n) (O.text out.new lent.new) result }
{
    put(out, lent, max, &two(n))
}

/// The last four digits.
#[tactic(auto, using(crate::proofs::Pairs::four_of_pairs))]
#[inline(always)]
fn four(n: u32) -> [u8; 4]
    ensures { result ≡ four n }
{
    let [thousands, hundreds] = two(n / 100);
    let [tens, ones] = two(n);
    [thousands, hundreds, tens, ones]
}

/// Adds the last four digits.
#[inline(always)]
fn put_four<O: Output>(out: &mut O, lent: &mut [u8], max: usize, n: u32) -> Result<(), Stop>
    requires short { length (O.text out.old lent.old) ≤ max }
    requires holds { Holds O.kind max (length lent.old) }
    ensures { Appends O.kind max (O.text out.old lent.old) (four n) (O.text out.new lent.new) result }
{
    put(out, lent, max, &four(n))
}

/// Adds a number of any length.
#[inline(never)]
fn put_long<O: Output>(out: &mut O, lent: &mut [u8], max: usize, n: u32) -> Result<(), Stop>
    requires short { length (O.text out.old lent.old) ≤ max }
    requires holds { Holds O.kind max (length lent.old) }
    ensures { Appends O.kind max (O.text out.old lent.old) (decimal n) (O.text out.new lent.new) result }
{
    let mut buffer = Buffer::new();
    put(out, lent, max, buffer.format(n).as_bytes())
}

/// Adds a number without padding.
#[inline(always)]
#[tactic(auto, using(crate::proofs::Numbers::four_digits))]
pub fn put_bare<O: Output>(out: &mut O, lent: &mut [u8], max: usize, n: u32) -> Result<(), Stop>
    requires short { length (O.text out.old lent.old) ≤ max }
    requires holds { Holds O.kind max (length lent.old) }
    ensures { Appends O.kind max (O.text out.old lent.old) (decimal n) (O.text out.new lent.new) result }
{
    if 1000 <= n && n <= 9999 {
        put_four(out, lent, max, n)
    } else {
        put_long(out, lent, max, n)
    }
}

/// Adds a number without padding, perhaps behind a `-`.
pub fn put_signed<O: Output>(out: &mut O, lent: &mut [u8], max: usize, n: i32) -> Result<(), Stop>
    requires short { length (O.text out.old lent.old) ≤ max }
    requires holds { Holds O.kind max (length lent.old) }
    ensures { Appends O.kind max (O.text out.old lent.old) (signed_decimal n) (O.text out.new lent.new) result }
{
    let mut buffer = Buffer::new();
    put(out, lent, max, buffer.format(n).as_bytes())
}

/// Adds a number in three digits.
#[inline(never)]
fn put_three<O: Output>(out: &mut O, lent: &mut [u8], max: usize, n: u32) -> Result<(), Stop>
    requires short { length (O.text out.old lent.old) ≤ max }
    requires holds { Holds O.kind max (length lent.old) }
    ensures { Appends O.kind max (O.text out.old lent.old) (three n) (O.text out.new lent.new) result }
{
    put(out, lent, max, &three(n))
}

/// A number in two places.
#[inline(always)]
pub fn spaced(n: u32) -> [u8; 2]
    ensures { result ≡ spaced n }
{
    if n < 10 {
        [b' ', last_digit(n)]
    } else {
        two(n)
    }
}

/// Adds a number in two places.
#[inline(never)]
fn put_spaced<O: Output>(out: &mut O, lent: &mut [u8], max: usize, n: u32) -> Result<(), Stop>
    requires short { length (O.text out.old lent.old) ≤ max }
    requires holds { Holds O.kind max (length lent.old) }
    ensures { Appends O.kind max (O.text out.old lent.old) (spaced n) (O.text out.new lent.new) result }
{
    put(out, lent, max, &spaced(n))
}

/// Adds a number as it is written.
#[inline(always)]
pub fn put_number<O: Output>(
    out: &mut O,
    lent: &mut [u8],
    max: usize,
    layout: Layout,
    n: u32,
) -> Result<(), Stop>
    requires short { length (O.text out.old lent.old) ≤ max }
    requires holds { Holds O.kind max (length lent.old) }
    ensures { Appends O.kind max (O.text out.old lent.old) (laid_out layout n) (O.text out.new lent.new) result }
{
    match layout {
        Layout::Bare => put_bare(out, lent, max, n),
        Layout::Two => put_two(out, lent, max, n),
        Layout::Three => put_three(out, lent, max, n),
        Layout::Spaced => put_spaced(out, lent, max, n),
    }
}

/// Adds a number without padding, if it has one digit or four, and says whether it did. There is room
/// for it.
#[tactic(auto, using(crate::proofs::Numbers::one_digit, crate::proofs::Numbers::four_digits))]
#[inline(always)]
pub fn put_bare_here<O: Output>(out: &mut O, lent: &mut [u8], n: u32) -> bool
    requires room { length (O.text out.old lent.old) + 16 ≤ O.room out.old (length lent.old) }
    ensures text { Adds O.kind (O.text out.old lent.old) (decimal n) (O.text out.new lent.new) result }
    ensures short { length (O.text out.new lent.new) ≤ length (O.text out.old lent.old) + 16 }
    ensures room { O.room out.new (length lent.new) ≡ O.room out.old (length lent.old) }
{
    if 1000 <= n && n <= 9999 {
        put_here(out, lent, &four(n))
    } else if n < 10 {
        put_here(out, lent, &[last_digit(n)])
    } else {
        false
    }
}
