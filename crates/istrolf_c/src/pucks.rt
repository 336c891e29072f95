// The VSXXX puck and its reader for C.
ghost use Rattle.ballbox.specs.declared.Event.TheVariants.{Motion, Buttons, Host, Latch, Send, Period};
ghost use Rattle.istrolf.specs.Promises.{MadePuckPromise, PuckStepPromise, FreshPuckReaderPromise, PuckReaderStepPromise, PuckReadPromise};

use istrolf::{ReadPuckWord, ReadPuckWords};
use puck::{Puck, PuckStepped};
use puckreader::PuckReader;

// Power-up: buttons modulo 8, revision modulo 16, maker modulo 8.
#[unsafe(no_mangle)]
pub extern "C" fn istrolf_puck_made(buttons: u8, revision: u8, maker: u8) -> Puck
    ensures { MadePuckPromise buttons revision maker result }
{
    istrolf::pucks::istrolf_puck_made(buttons, revision, maker)
}

// The puck moved.
#[unsafe(no_mangle)]
pub extern "C" fn istrolf_puck_motion(puck: Puck, dx: i16, dy: i16) -> PuckStepped
    ensures { PuckStepPromise puck (Motion dx dy) result }
{
    istrolf::pucks::istrolf_puck_motion(puck, dx, dy)
}

// The buttons are now 4L+2M+R.
#[unsafe(no_mangle)]
pub extern "C" fn istrolf_puck_buttons(puck: Puck, buttons: u8) -> PuckStepped
    ensures { PuckStepPromise puck (Buttons buttons) result }
{
    istrolf::pucks::istrolf_puck_buttons(puck, buttons)
}

// A byte of the host's.
#[unsafe(no_mangle)]
pub extern "C" fn istrolf_puck_host(puck: Puck, byte: u8) -> PuckStepped
    ensures { PuckStepPromise puck (Host byte) result }
{
    istrolf::pucks::istrolf_puck_host(puck, byte)
}

// Latching, when nothing is going.
#[unsafe(no_mangle)]
pub extern "C" fn istrolf_puck_latch(puck: Puck) -> PuckStepped
    ensures { PuckStepPromise puck Latch result }
{
    istrolf::pucks::istrolf_puck_latch(puck)
}

// The next byte is sent.
#[unsafe(no_mangle)]
pub extern "C" fn istrolf_puck_send(puck: Puck) -> PuckStepped
    ensures { PuckStepPromise puck Send result }
{
    istrolf::pucks::istrolf_puck_send(puck)
}

// The report interval is over.
#[unsafe(no_mangle)]
pub extern "C" fn istrolf_puck_period(puck: Puck) -> PuckStepped
    ensures { PuckStepPromise puck Period result }
{
    istrolf::pucks::istrolf_puck_period(puck)
}

// A fresh reader.
#[unsafe(no_mangle)]
pub extern "C" fn istrolf_puck_reader_fresh() -> PuckReader
    ensures { FreshPuckReaderPromise result }
{
    istrolf::pucks::istrolf_puck_reader_fresh()
}

// One word.
#[unsafe(no_mangle)]
pub extern "C" fn istrolf_puck_reader_step(reader: PuckReader, word: u16) -> ReadPuckWord
    ensures { PuckReaderStepPromise reader word result }
{
    istrolf::pucks::istrolf_puck_reader_step(reader, word)
}

// A line of words, and the numbers of its reports to a lent slice.
#[unsafe(no_mangle)]
pub extern "C" fn istrolf_puck_reader_read(
    reader: PuckReader,
    words: &[u16],
    out: &mut [i16],
) -> ReadPuckWords
    ensures { PuckReadPromise reader words.now out.old result out.new }
{
    istrolf::pucks::istrolf_puck_reader_read(reader, words, out)
}
