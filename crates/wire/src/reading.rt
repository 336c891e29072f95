// The report that the bytes of a format stand for.
ghost use Rattle.std.specs.Prelude.{◌≡◌};
ghost use Rattle.numbers.specs.Signed.{untwos};
ghost use Rattle.wire.specs.Reading.{report, read_s, read_v, twelve, read_a, read_b, read_u, read_t, pair, read_w, report_of};

use crate::digits::number_of;
use crate::signed::{joined, unwrapped};
use crate::{Format, Report};

// A report whose second pair is zero.
#[inline(always)]
pub(crate) fn report(buttons: u8, x: i16, y: i16) -> Report
    ensures { result ≡ report buttons x y }
{
    Report {
        buttons,
        x1: x,
        y1: y,
        x2: 0,
        y2: 0,
    }
}

// A two's complement byte.
#[inline(always)]
fn unwrapped_byte(b: u8) -> i16
    ensures { result ≡ untwos 128 b }
{
    unwrapped(u16::from(b), 128)
}

// S: a sign bit and a magnitude for each axis.
#[tactic(auto, unfolding(crate::specs::Reading::read_s, numbers::specs::Bits::bit), using(numbers::proofs::Rows::number_low))]
#[inline(always)]
fn read_mm(b1: u8, b2: u8, b3: u8) -> Report
    ensures { result ≡ read_s b1 b2 b3 }
{
    let x = joined(b1 / 16 % 2 == 1, u16::from(b2 % 128));
    let y = joined(b1 / 8 % 2 == 1, u16::from(b3 % 128));
    report(b1 % 8, x, y)
}

// V: the top two bits of either byte stand in the first. M is up, and y is minus the wire's.
#[inline(always)]
fn read_microsoft(b1: u8, b2: u8, b3: u8) -> Report
    ensures { result ≡ read_v b1 b2 b3 }
{
    let x = unwrapped_byte(((b1 % 4) << 6) + b2 % 64);
    let y = unwrapped_byte(((b1 / 4 % 4) << 6) + b3 % 64);
    report(b1 / 32 % 2 * 4 + b1 / 16 % 2, x, -y)
}

// A, B: twelve bits of two bytes, six in each.
#[tactic(auto, using(crate::proofs::Fields::twelve_of))]
#[inline(always)]
fn twelve(low: u8, high: u8) -> u16
    ensures { result ≡ twelve low high }
{
    (u16::from(high % 64) << 6) + u16::from(low % 64)
}

// A: two positions.
#[tactic(auto, unfolding(crate::specs::Reading::read_a), using(crate::proofs::Fields::buttons_a, crate::proofs::Fields::twelve_below))]
#[inline(always)]
fn read_absolute(b1: u8, b2: u8, b3: u8, b4: u8, b5: u8) -> Report
    ensures { result ≡ read_a b1 b2 b3 b4 b5 }
{
    report(b1 / 4 % 8, twelve(b2, b3) as i16, twelve(b4, b5) as i16)
}

// B: as A, two's complement.
#[tactic(auto, unfolding(crate::specs::Reading::read_b), using(crate::proofs::Fields::buttons_a, crate::proofs::Fields::twelve_below))]
#[inline(always)]
fn read_relative(b1: u8, b2: u8, b3: u8, b4: u8, b5: u8) -> Report
    ensures { result ≡ read_b b1 b2 b3 b4 b5 }
{
    report(
        b1 / 4 % 8,
        unwrapped(twelve(b2, b3), 2048),
        unwrapped(twelve(b4, b5), 2048),
    )
}

// U: the buttons are 0 where pressed, and there are two pairs.
#[inline(always)]
fn read_five(b1: u8, b2: u8, b3: u8, b4: u8, b5: u8) -> Report
    ensures { result ≡ read_u b1 b2 b3 b4 b5 }
{
    Report {
        buttons: 7 - b1 % 8,
        x1: unwrapped_byte(b2),
        y1: unwrapped_byte(b3),
        x2: unwrapped_byte(b4),
        y2: unwrapped_byte(b5),
    }
}

// T: the buttons, and a byte for each axis.
#[tactic(auto, unfolding(crate::specs::Reading::read_t), using(numbers::proofs::Rows::number_low))]
#[inline(always)]
fn read_three(b1: u8, b2: u8, b3: u8) -> Report
    ensures { result ≡ read_t b1 b2 b3 }
{
    report(b1 % 8, unwrapped_byte(b2), unwrapped_byte(b3))
}

// W: a byte of two digits, the low one first.
#[tactic(auto, using(crate::proofs::Fields::undigit_below, crate::proofs::Fields::pair_of))]
#[inline(always)]
fn pair(low: u8, high: u8) -> u8
    ensures { result ≡ pair low high }
{
    number_of(high) * 16 + number_of(low)
}

// W: a digit for the buttons, and two for each axis.
#[tactic(auto, unfolding(crate::specs::Reading::read_w))]
#[inline(always)]
fn read_hexadecimal(b1: u8, b2: u8, b3: u8, b4: u8, b5: u8) -> Report
    ensures { result ≡ read_w b1 b2 b3 b4 b5 }
{
    report(
        number_of(b1),
        unwrapped_byte(pair(b2, b3)),
        unwrapped_byte(pair(b4, b5)),
    )
}

// The report that bytes stand for in a format.
#[inline(always)]
pub(crate) fn report_in(f: Format, b: [u8; 5]) -> Report
    ensures { result ≡ report_of f b }
{
    let [b1, b2, b3, b4, b5] = b;
    match f {
        Format::Mm => read_mm(b1, b2, b3),
        Format::Microsoft => read_microsoft(b1, b2, b3),
        Format::Absolute => read_absolute(b1, b2, b3, b4, b5),
        Format::Relative => read_relative(b1, b2, b3, b4, b5),
        Format::FiveByte => read_five(b1, b2, b3, b4, b5),
        Format::ThreeByte => read_three(b1, b2, b3),
        Format::Hexadecimal => read_hexadecimal(b1, b2, b3, b4, b5),
    }
}
