// What a byte of the host's means, and what it does.
ghost use Rattle.std.specs.Prelude.{◌≡◌, true, false, [], ◌∷◌};
ghost use Rattle.ballbox.specs.Box.{mode_d, with_format, with_mode, with_track, with_going, with_memory, with_due, with_dormant};
ghost use Rattle.ballbox.specs.Presses.{none};
ghost use Rattle.ballbox.specs.Latching.{cleared};
ghost use Rattle.ballbox.specs.Commands.{is_timed, is_stream, command_of, code_byte, obeyed};

use crate::presses::none;
use crate::{
    ACK, BYTE_05, BallBox, Command, Going, LETTER_F, LETTER_P, LETTER_T, MODE_D, MODE_O, MODE_R,
    SPACE,
};
use wire::{FORMAT_A, FORMAT_B, FORMAT_S, FORMAT_T, FORMAT_U, FORMAT_V, FORMAT_W};

// The host's byte that makes the box dormant.
const LETTER_D: u8 = b'd';

// The modes in which the report interval counts.
const MODE_J: u8 = b'J';

const MODE_K: u8 = b'K';

const MODE_L: u8 = b'L';

const MODE_M: u8 = b'M';

const MODE_Q: u8 = b'Q';

const MODE_N: u8 = b'N';

pub(crate) fn is_timed(mode: u8) -> bool
    ensures { result ≡ is_timed mode }
{
    (mode == MODE_J)
        | (mode == MODE_K)
        | (mode == MODE_L)
        | (mode == MODE_R)
        | (mode == MODE_M)
        | (mode == MODE_Q)
        | (mode == MODE_N)
}

pub(crate) fn is_stream(mode: u8) -> bool
    ensures { result ≡ is_stream mode }
{
    is_timed(mode) | (mode == MODE_O)
}

// What a byte of the host's asks for.
pub(crate) fn heard(byte: u8) -> Command
    ensures { result ≡ command_of byte }
{
    match byte {
        FORMAT_A | FORMAT_B | FORMAT_S | FORMAT_T | FORMAT_U | FORMAT_V | FORMAT_W =>
            Command::SetFormat(byte),
        MODE_J | MODE_K | MODE_L | MODE_M | MODE_N | MODE_O | MODE_Q | MODE_R => Command::SetStream(
            byte,
        ),
        MODE_D => Command::SetPrompt,
        LETTER_P => Command::AskReport,
        SPACE => Command::AskAck,
        LETTER_F => Command::AskCode,
        LETTER_T => Command::AskLetters,
        BYTE_05 => Command::AskButtons,
        LETTER_D => Command::Sleep,
        _ => Command::Ignored,
    }
}

// 10H plus twice the format's code.
fn code_byte(letter: u8) -> u8
    ensures { result ≡ code_byte letter }
{
    match letter {
        FORMAT_U => 0x10,
        FORMAT_T => 0x12,
        FORMAT_W => 0x14,
        FORMAT_B => 0x16,
        FORMAT_S => 0x1A,
        FORMAT_A => 0x1C,
        FORMAT_V => 0x1E,
        _ => 0x10,
    }
}

impl BallBox {
    // A format is set: counters, memory and due are cleared, and the last position is the position.
    fn with_format(mut self, letter: u8) -> BallBox
        ensures { result ≡ with_format letter (with_track (cleared self.track) (with_memory none (with_due false self))) }
    {
        let track = self.track;
        self.settings.format = letter;
        self.track = track.cleared();
        self.memory = none();
        self.due = 0;
        self
    }

    fn with_mode(mut self, mode: u8) -> BallBox
        ensures { result ≡ with_mode mode self }
    {
        self.settings.mode = mode;
        self
    }

    // Prompt mode is set, and the memory emptied.
    fn prompted(mut self, due: bool) -> BallBox
        ensures { result ≡ with_mode mode_d (with_memory none (with_due due self)) }
    {
        self.settings.mode = MODE_D;
        self.memory = none();
        self.due = due as u8;
        self
    }

    // A reply of up to three bytes is to be sent; the third is 0.
    pub(crate) fn replying(mut self, length: u8, b1: u8, b2: u8) -> BallBox
        ensures { result ≡ with_going (record { length = length; sent = 0; bytes = b1 ∷ b2 ∷ 0 ∷ 0 ∷ 0 ∷ [] }) self }
    {
        let reply = Going {
            length: length,
            sent: 0,
            bytes: [b1, b2, 0, 0, 0],
        };
        self.going = reply;
        self
    }

    // Dormant, and nothing is remembered or due.
    fn put_to_sleep(mut self) -> BallBox
        ensures { result ≡ with_dormant true (with_memory none (with_due false self)) }
    {
        self.memory = none();
        self.dormant = 1;
        self.due = 0;
        self
    }

    // What a command does, where nothing is going.
    pub(crate) fn obeyed(self, command: Command) -> BallBox
        ensures { result ≡ obeyed command self }
    {
        match command {
            Command::SetFormat(f) => self.with_format(f),
            Command::SetStream(m) => self.with_mode(m),
            Command::SetPrompt => self.prompted(false),
            Command::AskReport => self.prompted(true),
            Command::AskAck => self.replying(1, ACK, 0),
            Command::AskCode => self.replying(1, code_byte(self.settings.format), 0),
            Command::AskLetters => self.replying(2, self.settings.format, self.settings.mode),
            Command::AskButtons => self.replying(3, self.settings.buttons, 0),
            Command::Sleep => self.put_to_sleep(),
            Command::Ignored => self,
        }
    }
}
