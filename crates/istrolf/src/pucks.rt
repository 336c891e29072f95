// The VSXXX puck and its reader for C.
ghost use Rattle.std.specs.Prelude.{◌≡◌};
ghost use Rattle.ballbox.specs.declared.Event.TheVariants.{Motion, Buttons, Host, Latch, Send, Period};
ghost use Rattle.puckreader.specs.Line.{reading_in};
ghost use Rattle.istrolf.specs.Pucks.{no_test, answered, packed_reading};
ghost use Rattle.istrolf.specs.Promises.{MadePuckPromise, PuckStepPromise, FreshPuckReaderPromise, PuckReaderStepPromise, PuckReadPromise};

use crate::readers::{no_report, number_if};
use crate::{ReadPuckWord, ReadPuckWords};
use ballbox::Event;
use puck::{Puck, PuckStepped};
use puckreader::{PuckAnswer, PuckReader, PuckReading};
use vsxxx::SelfTest;
use wire::SUCCESS;

// Power-up: buttons modulo 8, revision modulo 16, maker modulo 8.
pub fn istrolf_puck_made(buttons: u8, revision: u8, maker: u8) -> Puck
    ensures { MadePuckPromise buttons revision maker result }
{
    Puck::made(buttons, revision, maker)
}

// The puck moved.
pub fn istrolf_puck_motion(puck: Puck, dx: i16, dy: i16) -> PuckStepped
    ensures { PuckStepPromise puck (Motion dx dy) result }
{
    puck.step(Event::Motion(dx, dy))
}

// The buttons are now 4L+2M+R.
pub fn istrolf_puck_buttons(puck: Puck, buttons: u8) -> PuckStepped
    ensures { PuckStepPromise puck (Buttons buttons) result }
{
    puck.step(Event::Buttons(buttons))
}

// A byte of the host's.
pub fn istrolf_puck_host(puck: Puck, byte: u8) -> PuckStepped
    ensures { PuckStepPromise puck (Host byte) result }
{
    puck.step(Event::Host(byte))
}

// Latching, when nothing is going.
pub fn istrolf_puck_latch(puck: Puck) -> PuckStepped
    ensures { PuckStepPromise puck Latch result }
{
    puck.step(Event::Latch)
}

// The next byte is sent.
pub fn istrolf_puck_send(puck: Puck) -> PuckStepped
    ensures { PuckStepPromise puck Send result }
{
    puck.step(Event::Send)
}

// The report interval is over.
pub fn istrolf_puck_period(puck: Puck) -> PuckStepped
    ensures { PuckStepPromise puck Period result }
{
    puck.step(Event::Period)
}

fn no_test() -> SelfTest
    ensures { result ≡ no_test }
{
    SelfTest {
        revision: 0,
        maker: 0,
        device: 0,
        error: 0,
        buttons: 0,
    }
}

fn answered(refusal: u8, next: PuckReader, answer: PuckAnswer) -> ReadPuckWord
    ensures { result ≡ answered refusal next answer }
{
    let nothing = ReadPuckWord {
        refusal,
        movements: 0,
        tests: 0,
        dropped: 0,
        next,
        movement: no_report(),
        test: no_test(),
    };
    match answer {
        PuckAnswer::Nothing => nothing,
        PuckAnswer::Movement(movement) => ReadPuckWord {
            movements: 1,
            movement,
            ..nothing
        },
        PuckAnswer::Test(test) => ReadPuckWord {
            tests: 1,
            test,
            ..nothing
        },
        PuckAnswer::Dropped(dropped) => ReadPuckWord { dropped, ..nothing },
    }
}

impl From<PuckReading> for ReadPuckWords {
    ghost from_gives = { λ reading words. words ≡ packed_reading (reading_in reading) };

    fn from(reading: PuckReading) -> Self {
        ReadPuckWords {
            refusal: number_if(reading.refusal),
            next: reading.next,
            taken: reading.taken,
            reports: reading.reports,
            dropped: reading.dropped,
        }
    }
}

// A fresh reader.
pub fn istrolf_puck_reader_fresh() -> PuckReader
    ensures { FreshPuckReaderPromise result }
{
    PuckReader::fresh()
}

// One word.
pub fn istrolf_puck_reader_step(reader: PuckReader, word: u16) -> ReadPuckWord
    ensures { PuckReaderStepPromise reader word result }
{
    match reader.step(word) {
        Ok(step) => answered(SUCCESS, step.next, step.answer),
        Err(refusal) => answered(refusal.number(), reader, PuckAnswer::Nothing),
    }
}

// A line of words, and the numbers of its reports to a lent slice.
pub fn istrolf_puck_reader_read(reader: PuckReader, words: &[u16], out: &mut [i16]) -> ReadPuckWords
    ensures { PuckReadPromise reader words.now out.old result out.new }
{
    ReadPuckWords::from(reader.read(words, out))
}
