// The encoder for C: a report in, bytes out.
ghost use Rattle.istrolf.specs.Promises.{EncodePromise};

use crate::Encoding;
use wire::{Report, length_in, number_in};

// The bytes of a report, to the front of a buffer.
pub fn istrolf_encode(letter: u8, report: Report, buffer: &mut [u8]) -> Encoding
    ensures { EncodePromise letter report buffer.old result buffer.new }
{
    let encoded = wire::encode(letter, report, buffer);
    Encoding {
        refusal: number_in(&encoded),
        length: length_in(encoded),
    }
}
