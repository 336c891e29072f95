// Which bytes are valid at the first place of a report, and which at a later one.
ghost use Rattle.std.specs.Prelude.{◌≡◌};
ghost use Rattle.wire.specs.Places.{fits_first, fits_later, fits_by};

use crate::Format;
use crate::digits::is_digit;
use crate::line::format_of;
use crate::parity::is_even;

#[inline(always)]
fn fits_first(f: Format, b: u8) -> bool
    ensures { result ≡ fits_first f b }
{
    match f {
        Format::Mm => b / 32 == 4,
        Format::Microsoft => b / 64 == 1,
        Format::Absolute => (b / 32 % 4 == 2) & (b % 4 == 0) & is_even(b),
        Format::Relative => (b / 32 % 4 == 2) & (b % 4 == 0) & is_even(b),
        Format::FiveByte => b / 8 == 16,
        Format::ThreeByte => b < 8,
        Format::Hexadecimal => (b'0' <= b) & (b <= b'7'),
    }
}

#[inline(always)]
fn fits_later(f: Format, b: u8) -> bool
    ensures { result ≡ fits_later f b }
{
    match f {
        Format::Mm => b < 128,
        Format::Microsoft => b < 64,
        Format::Absolute => (b / 64 % 2 == 0) & is_even(b),
        Format::Relative => (b / 64 % 2 == 0) & is_even(b),
        Format::FiveByte => true,
        Format::ThreeByte => true,
        Format::Hexadecimal => is_digit(b),
    }
}

// Whether a byte is valid at the first place, and at a later one, of a format given by its letter.
#[inline(always)]
pub(crate) fn first_by(letter: u8, b: u8) -> bool
    ensures { result ≡ fits_by letter 0 b }
{
    match format_of(letter) {
        Some(f) => fits_first(f, b),
        None => false,
    }
}

#[inline(always)]
pub(crate) fn later_by(letter: u8, b: u8) -> bool
    ensures { result ≡ fits_by letter 1 b }
{
    match format_of(letter) {
        Some(f) => fits_later(f, b),
        None => false,
    }
}
