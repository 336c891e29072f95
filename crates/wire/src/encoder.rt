// What the encoder writes, and the length that it tells.
ghost use Rattle.std.specs.Prelude.{◌≡◌, true};
ghost use Rattle.wire.specs.Holds.{accepted};
ghost use Rattle.wire.specs.Encoder.{outcome, writing, encode_of};
ghost use Rattle.wire.specs.Promises.{LengthPromise};

use crate::holds::unheld;
use crate::line::format_of;
use crate::table::bytes_of;
use crate::{Format, Refusal, Report};

// An accepted report's bytes at the front of a buffer, if they have room there.
#[inline(always)]
pub(crate) fn write(f: Format, report: Report, buffer: &mut [u8]) -> Result<usize, Refusal>
    requires { accepted f report ≡ true }
    ensures { outcome result buffer.new ≡ writing f report buffer.old }
{
    let length = f.size();
    if buffer.len() < length {
        return Err(Refusal::BufferTooShort);
    }
    buffer[..length].copy_from_slice(&bytes_of(f, report)[..length]);
    Ok(length)
}

// A report in the format of a letter: each refusal in its turn, and then the bytes.
#[tactic(auto, unfolding(crate::specs::Encoder::encode_in, crate::specs::Holds::holds, crate::specs::Holds::accepted))]
#[inline(always)]
pub(crate) fn by_letter(letter: u8, report: Report, buffer: &mut [u8]) -> Result<usize, Refusal>
    ensures { outcome result buffer.new ≡ encode_of letter report buffer.old }
{
    let Some(f) = format_of(letter) else {
        return Err(Refusal::NoSuchLetter);
    };
    if report.buttons > 7 {
        return Err(Refusal::ButtonsAboveSeven);
    }
    match unheld(f, report) {
        Some(movement) => Err(movement.into()),
        None => write(f, report, buffer),
    }
}

// The length told for an answer: 0 for a refusal.
#[inline(always)]
pub fn length_in(answer: Result<usize, Refusal>) -> usize
    ensures { LengthPromise answer result }
{
    answer.unwrap_or(0)
}
