// The port for C: it is the library's own, by value; what it tells is a count and a word.
ghost use Rattle.std.specs.Prelude.{◌≡◌};
ghost use Rattle.istrolf.specs.Ports.{packed};
ghost use Rattle.istrolf.specs.Promises.{FreshPortPromise, ClearingPortPromise, PortBytePromise, PortBytesPromise, PortQuietPromise, PortLostPromise};

use crate::PortWord;
use port::{Heard, Port, Words};

// What was heard, as C has it.
impl From<Heard> for PortWord {
    ghost from_gives = { λ heard told. told ≡ packed heard };

    fn from(heard: Heard) -> Self {
        match heard.given {
            None => PortWord {
                words: 0,
                word: 0,
                next: heard.next,
            },
            Some(word) => PortWord {
                words: 1,
                word,
                next: heard.next,
            },
        }
    }
}

// A port on which nothing has come.
pub fn istrolf_port_fresh(silence: u32) -> Port
    ensures { FreshPortPromise silence result }
{
    Port::fresh(silence)
}

// One that clears bit 7 of every byte.
pub fn istrolf_port_clearing(silence: u32) -> Port
    ensures { ClearingPortPromise silence result }
{
    Port::clearing(silence)
}

// A byte that the tty handed over.
pub fn istrolf_port_byte(port: Port, byte: u8) -> PortWord
    ensures { PortBytePromise port byte result }
{
    PortWord::from(port.byte(byte))
}

// Bytes that it handed over.
pub fn istrolf_port_bytes(port: Port, raw: &[u8], out: &mut [u16]) -> Words
    ensures { PortBytesPromise port raw.now out.old result out.new }
{
    port.bytes(raw, out)
}

// A wait in which nothing came.
pub fn istrolf_port_quiet(port: Port, wait: u32) -> PortWord
    ensures { PortQuietPromise port wait result }
{
    PortWord::from(port.quiet(wait))
}

// Bytes are known to be lost.
pub fn istrolf_port_lost(port: Port) -> PortWord
    ensures { PortLostPromise port result }
{
    PortWord::from(port.lost())
}
