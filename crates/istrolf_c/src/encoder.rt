// The encoder for C: a report in, bytes out.
ghost use Rattle.istrolf.specs.Promises.{EncodePromise};

use istrolf::Encoding;
use wire::Report;

// The bytes of a report, to the front of a buffer.
#[unsafe(no_mangle)]
pub extern "C" fn istrolf_encode(letter: u8, report: Report, buffer: &mut [u8]) -> Encoding
    ensures { EncodePromise letter report buffer.old result buffer.new }
{
    istrolf::encoder::istrolf_encode(letter, report, buffer)
}
