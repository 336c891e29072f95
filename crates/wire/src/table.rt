// The bytes of a report in a format, which holds it.
ghost use Rattle.std.specs.Prelude.{◌≡◌, true, ◌≤◌, ◌<◌, nat_abs};
ghost use Rattle.std.specs.Int.Signed.{mag, non_neg};
ghost use Rattle.numbers.specs.Bits.{value, bit};
ghost use Rattle.numbers.specs.Signed.{twos};
ghost use Rattle.wire.specs.Table.{five, bytes_s, rows_v, rows_a, rows_w, bytes_of};
ghost use Rattle.wire.specs.Holds.{accepted};
ghost use Rattle.wire.specs.Reading.{report};

use crate::digits::digit_of;
use crate::parity::with_parity;
use crate::signed::wrapped;
use crate::{Format, Report};

// The sign bit of S: 1 is positive, and zero is sent so.
#[inline(always)]
fn sign_bit(v: i16) -> u8
    ensures { result ≡ value (non_neg v) }
{
    u8::from(v >= 0)
}

// A two's complement byte.
#[inline(always)]
fn wrapped_byte(v: i16) -> u8
    requires { mag v < 128 }
    ensures { result ≡ twos 128 v }
{
    wrapped(v, 128) as u8
}

// S: a sign bit and a magnitude for each axis.
#[tactic(auto, unfolding(crate::specs::Table::bytes_s), using(crate::proofs::Sums::sum_s))]
#[inline(always)]
fn rows_s(buttons: u8, x: i16, y: i16) -> [u8; 5]
    requires { (buttons ≤ 7) × (nat_abs x ≤ 127) × (nat_abs y ≤ 127) }
    ensures { result ≡ five (bytes_s (report buttons x y)) }
{
    let first = 128 + (sign_bit(x) << 4) + (sign_bit(y) << 3) + buttons;
    [first, x.unsigned_abs() as u8, y.unsigned_abs() as u8, 0, 0]
}

// V: the top two bits of either byte stand in the first, and M is dropped.
#[tactic(auto, using(crate::proofs::Sums::rows_v_lem))]
#[inline(always)]
fn rows_v(buttons: u8, x: u8, y: u8) -> [u8; 5]
    requires { buttons ≤ 7 }
    ensures { result ≡ five (rows_v (bit 2 buttons) (bit 0 buttons) x y) }
{
    let first = 64 + ((buttons / 4) << 5) + ((buttons % 2) << 4) + ((y >> 6) << 2) + (x >> 6);
    [first, x % 64, y % 64, 0, 0]
}

// A, B: two numbers of twelve bits, six to a byte, each byte with its parity.
#[inline(always)]
fn rows_a(r: Report, x: u16, y: u16) -> [u8; 5]
    requires { (r.buttons ≤ 7) × (x < 4096) × (y < 4096) }
    ensures { result ≡ rows_a r x y }
{
    [
        with_parity(64 + (r.buttons << 2)),
        with_parity((x % 64) as u8),
        with_parity((x >> 6) as u8),
        with_parity((y % 64) as u8),
        with_parity((y >> 6) as u8),
    ]
}

// W: a digit for the buttons, and two for each byte, the low one first.
#[tactic(auto, using(crate::proofs::Sums::low_four, crate::proofs::Sums::high_four), unfolding(crate::specs::Table::rows_w))]
#[inline(always)]
fn rows_w(buttons: u8, x: u8, y: u8) -> [u8; 5]
    requires { buttons ≤ 7 }
    ensures { result ≡ rows_w buttons x y }
{
    [
        digit_of(buttons),
        digit_of(x % 16),
        digit_of(x / 16),
        digit_of(y % 16),
        digit_of(y / 16),
    ]
}

// The bytes of a report, and zeros behind them to make five. V has minus y on the wire; U has 0 for a pressed button.
#[inline(always)]
pub(crate) fn bytes_of(f: Format, r: Report) -> [u8; 5]
    requires { accepted f r ≡ true }
    ensures { result ≡ five (bytes_of f r) }
{
    let Report {
        buttons: b,
        x1: x,
        y1: y,
        x2,
        y2,
    } = r;
    match f {
        Format::Mm => rows_s(b, x, y),
        Format::Microsoft => rows_v(b, wrapped_byte(x), wrapped_byte(-y)),
        Format::Absolute => rows_a(r, x.unsigned_abs(), y.unsigned_abs()),
        Format::Relative => rows_a(r, wrapped(x, 2048), wrapped(y, 2048)),
        Format::FiveByte => [
            128 + (7 - b),
            wrapped_byte(x),
            wrapped_byte(y),
            wrapped_byte(x2),
            wrapped_byte(y2),
        ],
        Format::ThreeByte => [b, wrapped_byte(x), wrapped_byte(y), 0, 0],
        Format::Hexadecimal => rows_w(b, wrapped_byte(x), wrapped_byte(y)),
    }
}
