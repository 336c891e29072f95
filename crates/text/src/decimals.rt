// Numbers as decimals, written and read at a width.
ghost use Rattle.std.specs.Prelude.{◌≡◌};
ghost use Rattle.text.specs.Growth.{slice, filled_by};
ghost use Rattle.text.specs.Decimals.{digit_of, digits_of, size_of, places_of, unsigned_of, plus_in, minus, has_minus};
ghost use Rattle.text.specs.Promises.{DecimalToPromise, DecimalPromise, NumberPromise};

use crate::Text;

// Below this one digit more can be read.
const MORE: u64 = 100_000_000_000_000_000;

// The last digit of a number.
fn digit(n: u64) -> u8
    ensures { result ≡ digit_of n }
{
    b'0' + (n % 10) as u8
}

// The digits that a number needs. Up to three need no logarithm: the numbers of a recording have no more.
fn size(n: u64) -> usize
    ensures { result ≡ size_of n }
{
    if n < 10 {
        1
    } else if n < 100 {
        2
    } else if n < 1000 {
        3
    } else {
        n.ilog10() as usize + 1
    }
}

// And at a width.
fn places(width: usize, n: u64) -> usize
    ensures { result ≡ places_of width n }
{
    width.max(size(n))
}

// The number of digits at a width.
fn plus(bytes: &[u8], width: usize) -> Option<i64>
    ensures { result ≡ plus_in width bytes.now }
{
    let mut v: u64 = 0;
    for c in bytes {
        if !c.is_ascii_digit() || v >= MORE {
            return None;
        }
        v = v * 10 + u64::from(*c - b'0');
    }
    if bytes.len() == places(width, v) {
        Some(v as i64)
    } else {
        None
    }
}

// The same behind a minus; there is no minus 0.
fn minus(number: Option<i64>) -> Option<i64>
    ensures { result ≡ minus number }
{
    match number {
        Some(x) if 0 < x => Some(-x),
        _ => None,
    }
}

// Whether a minus stands in front. (`strip_prefix` is a call, which cost the salvage of a log three instructions a word.)
fn has_minus(bytes: &[u8]) -> bool
    ensures { result ≡ has_minus bytes.now }
{
    if bytes.len() == 0 {
        return false;
    }
    bytes[0] == b'-'
}

// The number of a decimal of so many digits at least.
pub fn number(bytes: &[u8], width: usize) -> Option<i64>
    ensures { NumberPromise bytes.now width result }
{
    if has_minus(bytes) {
        minus(plus(&bytes[1..], width))
    } else {
        plus(bytes, width)
    }
}

// The last digits of a number, as many as there are places, to a slice: the last is written first.
fn digits(out: &mut [u8], at: usize, places: usize, n: u64) -> usize
    ensures { slice out.new result ≡ filled_by (slice out.old at) (digits_of places n) }
{
    if at >= out.len() {
        return at;
    }
    let room = out.len() - at;
    let mut v = n;
    for k in (0..places).rev() {
        if k < room {
            out[at + k] = digit(v);
        }
        v /= 10;
    }
    at + places.min(room)
}

// The digits of a number without a sign, of so many at least, to a slice at a place, and the place behind them. One digit, and the six digits of a line
// number, are not counted, and have code of their own.
fn unsigned_to(out: &mut [u8], at: usize, width: usize, n: u64) -> usize
    ensures { slice out.new result ≡ filled_by (slice out.old at) (unsigned_of width n) }
{
    if n < 10 && width < 2 {
        return Text::byte_to(out, at, digit(n));
    }
    if width == 6 && n < 1_000_000 {
        return digits(out, at, 6, n);
    }
    digits(out, at, places(width, n), n)
}

impl Text {
    // The decimal of a number, of so many digits at least, to a slice at a place, and the place behind it.
    pub fn decimal_to(out: &mut [u8], at: usize, width: usize, x: i64) -> usize
        ensures { DecimalToPromise out.old at width x result out.new }
    {
        let start = if x < 0 {
            Text::byte_to(out, at, b'-')
        } else {
            at
        };
        unsigned_to(out, start, width, x.unsigned_abs())
    }

    // The decimal of a number, of so many digits at least.
    pub fn decimal(mut self, width: usize, x: i64) -> Text
        ensures { DecimalPromise self width x result }
    {
        let at = self.len;
        self.len = Text::decimal_to(&mut self.bytes, at, width, x);
        self
    }
}
