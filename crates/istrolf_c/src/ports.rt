// The port for C: it is the library's own, by value; what it tells is a count and a word.
ghost use Rattle.istrolf.specs.Promises.{FreshPortPromise, ClearingPortPromise, PortBytePromise, PortBytesPromise, PortQuietPromise, PortLostPromise};

use istrolf::PortWord;
use port::{Port, Words};

// A port on which nothing has come.
#[unsafe(no_mangle)]
pub extern "C" fn istrolf_port_fresh(silence: u32) -> Port
    ensures { FreshPortPromise silence result }
{
    istrolf::ports::istrolf_port_fresh(silence)
}

// One that clears bit 7 of every byte.
#[unsafe(no_mangle)]
pub extern "C" fn istrolf_port_clearing(silence: u32) -> Port
    ensures { ClearingPortPromise silence result }
{
    istrolf::ports::istrolf_port_clearing(silence)
}

// A byte that the tty handed over.
#[unsafe(no_mangle)]
pub extern "C" fn istrolf_port_byte(port: Port, byte: u8) -> PortWord
    ensures { PortBytePromise port byte result }
{
    istrolf::ports::istrolf_port_byte(port, byte)
}

// Bytes that it handed over.
#[unsafe(no_mangle)]
pub extern "C" fn istrolf_port_bytes(port: Port, raw: &[u8], out: &mut [u16]) -> Words
    ensures { PortBytesPromise port raw.now out.old result out.new }
{
    istrolf::ports::istrolf_port_bytes(port, raw, out)
}

// A wait in which nothing came.
#[unsafe(no_mangle)]
pub extern "C" fn istrolf_port_quiet(port: Port, wait: u32) -> PortWord
    ensures { PortQuietPromise port wait result }
{
    istrolf::ports::istrolf_port_quiet(port, wait)
}

// Bytes are known to be lost.
#[unsafe(no_mangle)]
pub extern "C" fn istrolf_port_lost(port: Port) -> PortWord
    ensures { PortLostPromise port result }
{
    istrolf::ports::istrolf_port_lost(port)
}
