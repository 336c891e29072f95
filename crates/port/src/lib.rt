// The port: what a tty hands over becomes line words. A byte of the line that is FF comes as FF FF, a break as FF 00 00,
// and a damaged byte as FF 00 and that byte (PARMRK); a silence is told by the waits in which nothing came. Every state
// is good, so nothing is refused.
#![tactic(auto)]

ghost use Rattle.port.specs.Promises.{FreshPromise, ClearingPromise, BytePromise, QuietPromise, LostPromise, BytesPromise};

use crate::line::line;
use crate::marks::{byte_of, lost_of, quiet_of};

mod line;
mod marks;

// How far a mark has come: 0 none, 1 FF, else FF 00. Whether bit 7 of every byte is cleared: 0 if not. How long nothing
// must come for a silence, 0 for never; and how much of that is left, 0 once it was told. C has this struct, so the two
// marks are numbers.
#[repr(C)]
#[derive(Clone, Copy, Drop)]
pub struct Port {
    pub held: u8,
    pub clears: u8,
    pub silence: u32,
    pub left: u32,
}

// What a byte, a wait or a loss gives back: the port, and the word that it tells, if any.
#[derive(Clone, Copy, Drop)]
pub struct Heard {
    pub next: Port,
    pub given: Option<u16>,
}

// What many bytes give back: how many were taken, and how many words were written.
#[repr(C)]
#[derive(Clone, Copy, Drop)]
pub struct Words {
    pub next: Port,
    pub taken: usize,
    pub written: usize,
}

impl Port {
    // A port on which nothing has come, and how long nothing must come for a silence.
    pub fn fresh(silence: u32) -> Port
        ensures { FreshPromise silence result }
    {
        Port {
            held: 0,
            clears: 0,
            silence,
            left: silence,
        }
    }

    // The same for a line of V on a card that cannot do seven data bits: bit 7 of every byte is cleared.
    pub fn clearing(silence: u32) -> Port
        ensures { ClearingPromise silence result }
    {
        Port {
            held: 0,
            clears: 1,
            silence,
            left: silence,
        }
    }

    // One byte that the tty handed over.
    pub fn byte(self, b: u8) -> Heard
        ensures { BytePromise self b result }
    {
        byte_of(self, b)
    }

    // A wait in which nothing came.
    pub fn quiet(self, wait: u32) -> Heard
        ensures { QuietPromise self wait result }
    {
        quiet_of(self, wait)
    }

    // Bytes are known to be lost, however many: a count of the driver's went up. What is held of a mark stays held, since
    // the bytes were lost before marks were made.
    pub fn lost(self) -> Heard
        ensures { LostPromise self result }
    {
        lost_of(self)
    }

    // Bytes that the tty handed over, and their words to a lent slice. It stops before a byte whose word has no room.
    pub fn bytes(self, raw: &[u8], out: &mut [u16]) -> Words
        ensures { BytesPromise self raw.now out.old result out.new }
    {
        line(self, raw, out)
    }
}
