// The reply that is awaited: which bytes it may have, and what it tells.
ghost use Rattle.std.specs.Prelude.{◌≡◌, true, not, eqb, is_some};
ghost use Rattle.std.specs.Option.{unwrap_or};
ghost use Rattle.replies.specs.Replying.{none, awaiting, nothing, size_of, letter_of_code, is_mode, letter_fits, fits, below_size, placed, good, fitting, finishes, more, told, broken};
ghost use Rattle.replies.specs.Rules.{continues};

use crate::{Awaited, Came, Kind, Reply};
use ballbox::ACK;

// No reply is awaited.
pub(crate) fn nothing() -> Awaited
    ensures { result ≡ nothing }
{
    awaiting(None)
}

// How many bytes a reply has.
fn size(kind: Option<Kind>) -> u8
    ensures { result ≡ size_of kind }
{
    match kind {
        None => 0,
        Some(Kind::Ack) => 1,
        Some(Kind::Code) => 1,
        Some(Kind::Letters) => 2,
        Some(Kind::Buttons) => 3,
    }
}

// The letter of the format whose code a byte tells, if it is one of the seven.
fn letter_of_code(byte: u8) -> Option<u8>
    ensures some { is_some result ≡ not (eqb (letter_of_code byte) 0) }
    ensures letter { unwrap_or result 0 ≡ letter_of_code byte }
{
    match byte {
        0x10 => Some(b'U'),
        0x12 => Some(b'T'),
        0x14 => Some(b'W'),
        0x16 => Some(b'B'),
        0x1A => Some(b'S'),
        0x1C => Some(b'A'),
        0x1E => Some(b'V'),
        _ => None,
    }
}

// The letter of a mode.
fn is_mode(byte: u8) -> bool
    ensures { result ≡ is_mode byte }
{
    (byte == b'J')
        | (byte == b'K')
        | (byte == b'L')
        | (byte == b'R')
        | (byte == b'M')
        | (byte == b'Q')
        | (byte == b'N')
        | (byte == b'O')
        | (byte == b'D')
}

// A letter of the pair that tells format and mode.
fn letter_fits(place: u8, byte: u8) -> bool
    ensures { result ≡ letter_fits place byte }
{
    if place == 0 {
        return wire::known(byte);
    }
    is_mode(byte)
}

// Whether a byte may stand at a place of a reply.
fn fits(kind: Option<Kind>, place: u8, byte: u8) -> bool
    ensures { result ≡ fits kind place byte }
{
    match kind {
        None => false,
        Some(Kind::Ack) => byte == ACK,
        Some(Kind::Code) => letter_of_code(byte).is_some(),
        Some(Kind::Letters) => letter_fits(place, byte),
        Some(Kind::Buttons) => true,
    }
}

// A reply of which no byte has come.
pub(crate) fn awaiting(kind: Option<Kind>) -> Awaited
    ensures { result ≡ awaiting kind none }
{
    Awaited {
        kind,
        came: Came {
            count: 0,
            first: 0,
            second: 0,
        },
    }
}

impl Awaited {
    // Whether a place holds what it may: a byte that is valid there, or 0 where none has come.
    fn holds(self, place: u8, byte: u8) -> bool
        ensures { result ≡ placed self place byte }
    {
        if place < self.came.count {
            return fits(self.kind, place, byte);
        }
        byte == 0
    }

    // Whether fewer bytes have come than the reply has.
    fn below(self) -> bool
        ensures { result ≡ below_size self }
    {
        (self.came.count == 0) | (self.came.count < size(self.kind))
    }

    pub(crate) fn good(self) -> bool
        ensures { result ≡ good self }
    {
        self.below() & self.holds(0, self.came.first) & self.holds(1, self.came.second)
    }

    // Whether a byte is the next of the reply.
    fn takes(self, byte: u8) -> bool
        ensures { result ≡ fitting self byte }
    {
        fits(self.kind, self.came.count, byte)
    }

    // Whether a word is the next byte of the reply.
    pub(crate) fn continues(self, word: u16) -> bool
        ensures { result ≡ continues self word }
    {
        if word <= 255 {
            return self.takes(word as u8);
        }
        false
    }

    // Whether the next byte is the last.
    pub(crate) fn finishes(self) -> bool
        ensures { result ≡ finishes self }
    {
        self.came.count as u16 + 1 == size(self.kind) as u16
    }

    // One byte more has come.
    pub(crate) fn more(self, byte: u8) -> Awaited
        ensures { result ≡ more self byte }
    {
        if self.came.count == 0 {
            return Awaited {
                kind: self.kind,
                came: Came {
                    count: 1,
                    first: byte,
                    second: 0,
                },
            };
        }
        Awaited {
            kind: self.kind,
            came: Came {
                count: 2,
                first: self.came.first,
                second: byte,
            },
        }
    }

    // What the reply tells, with its last byte.
    pub(crate) fn told(self, byte: u8) -> Option<Reply>
        requires { fitting self byte ≡ true }
        ensures { result ≡ told self byte }
    {
        match self.kind? {
            Kind::Ack => Some(Reply::Ack),
            Kind::Code => {
                let letter = letter_of_code(byte)?;
                Some(Reply::Format(letter))
            }
            Kind::Letters => Some(Reply::Letters(self.came.first, byte)),
            Kind::Buttons => Some(Reply::Buttons(self.came.first % 8)),
        }
    }

    // It is broken, behind the bytes that have come.
    pub(crate) fn broken(self) -> Option<Reply>
        ensures { result ≡ broken self }
    {
        if self.kind.is_none() {
            return None;
        }
        Some(Reply::Broken(self.came))
    }
}
