// The ball box: counts, buttons and host bytes in, line words out. Here stand its parts, its letters and numbers, and what a user calls.
#![tactic(auto)]

ghost use Rattle.std.specs.Prelude.{◌≡◌};
ghost use Rattle.ballbox.specs.Box.{nothing, refused};
ghost use Rattle.ballbox.specs.Promises.{stepped, FreshPromise, StepPromise};
ghost use Rattle.ballbox.specs.declared.Event.TheVariants.{Motion, Buttons, Host, Latch, Send, Period};

use wire::{BAD_STATE, FORMAT_U};

mod commands;
mod events;
mod good;
mod latching;
mod motion;
mod presses;
mod thrown;

// The host's bytes that other crates know too: two modes, the commands that ask, and what acknowledges.
pub const MODE_D: u8 = b'D';

pub const MODE_R: u8 = b'R';

pub const LETTER_P: u8 = b'P';

pub const SPACE: u8 = b' ';

pub const LETTER_F: u8 = b'f';

pub const LETTER_T: u8 = b't';

pub const BYTE_05: u8 = 5;

pub const ACK: u8 = 6;

// The mode in which every movement is reported at once.
pub(crate) const MODE_O: u8 = b'O';

// Numbers given back.
const BAD_BUTTONS: u8 = 3;

// "buttons 0-7"
pub(crate) const MOST_BUTTONS: u8 = 7;

// A movement or a place, x and y.
#[repr(C)]
#[derive(Clone, Copy, Drop)]
pub struct Pair {
    pub x: i16,
    pub y: i16,
}

// What is set: the format's letter, the mode's letter, and the buttons as 4L+2M+R.
#[repr(C)]
#[derive(Clone, Copy, Drop)]
pub struct Settings {
    pub format: u8,
    pub mode: u8,
    pub buttons: u8,
}

// What is counted: the counters, the position, and the position last reported.
#[repr(C)]
#[derive(Clone, Copy, Drop)]
pub struct Track {
    pub counter: Pair,
    pub position: Pair,
    pub last: Pair,
}

// What is going: the bytes of a report or a reply, how many they are, and how many of them are sent. C has this struct and the others, and no heap is
// used: so a number stands beside bytes, and a mark is a number.
#[repr(C)]
#[derive(Clone, Copy, Drop)]
pub struct Going {
    pub length: u8,
    pub sent: u8,
    pub bytes: [u8; 5],
}

// What is remembered: button states that reports have yet to show, oldest first, how many they are, and whether the report that is going
// shows the first, 0 or 1.
#[repr(C)]
#[derive(Clone, Copy, Drop)]
pub struct Memory {
    pub states: [u8; 8],
    pub count: u8,
    pub showing: u8,
}

// A number held between two ends, and the excess, with its sign.
#[derive(Clone, Copy, Drop)]
pub struct Bounded {
    pub value: i16,
    pub excess: i64,
}

// An excess, or a sum of excesses, x and y.
#[repr(C)]
#[derive(Clone, Copy, Drop)]
pub struct Excess {
    pub x: i64,
    pub y: i64,
}

// Two numbers held, and the excess of either.
#[derive(Clone, Copy, Drop)]
pub struct BoundedPair {
    pub value: Pair,
    pub excess: Excess,
}

// What was thrown away, added up: over the report's limit, and over the counter's 16 bits.
#[repr(C)]
#[derive(Clone, Copy, Drop)]
pub struct Sums {
    pub limit: Excess,
    pub counter: Excess,
}

// What is set, counted, going, remembered and thrown away; whether a report is due, and whether the box is dormant: 0 or 1.
#[repr(C)]
#[derive(Clone, Copy, Drop)]
pub struct BallBox {
    pub settings: Settings,
    pub track: Track,
    pub going: Going,
    pub memory: Memory,
    pub sums: Sums,
    pub due: u8,
    pub dormant: u8,
}

// "Events: Motion(dx, dy), 16-bit signed; Buttons(n); Host(byte); [..] Period (the report interval is over)." and, for "Slot (time for one
// character)", "Latch, which does the latching when nothing is going and sends no word, and Send, which sends the next byte".
// Buttons are 4L+2M+R.
#[derive(Clone, Copy, Drop)]
pub enum Event {
    Motion(i16, i16),
    Buttons(u8),
    Host(u8),
    Latch,
    Send,
    Period,
}

// What a step hands back: the number of the refusal, 0 for success; how many words are sent, 0 or 1; the word, 0 where
// there is none; 0; and the box.
#[repr(C)]
#[derive(Clone, Copy, Drop)]
pub struct Stepped {
    pub refusal: u8,
    pub sent: u8,
    pub word: u16,
    pub rest: u32,
    pub next: BallBox,
}

// What a byte of the host's asks for.
#[derive(Clone, Copy, Drop)]
pub enum Command {
    SetFormat(u8),
    SetStream(u8),
    SetPrompt,
    AskReport,
    AskAck,
    AskCode,
    AskLetters,
    AskButtons,
    Sleep,
    Ignored,
}

// Nothing is going.
pub(crate) fn nothing() -> Going
    ensures { result ≡ nothing }
{
    Going {
        length: 0,
        sent: 0,
        bytes: [0u8; 5],
    }
}

impl BallBox {
    // Format U, mode O, nothing pressed, moved, going, remembered, thrown away or due, awake.
    pub fn fresh() -> BallBox
        ensures { FreshPromise result }
    {
        let zeros = Pair { x: 0, y: 0 };
        let none = Excess { x: 0, y: 0 };
        BallBox {
            settings: Settings {
                format: FORMAT_U,
                mode: MODE_O,
                buttons: 0,
            },
            track: Track {
                counter: zeros,
                position: zeros,
                last: zeros,
            },
            going: nothing(),
            memory: presses::none(),
            sums: Sums {
                limit: none,
                counter: none,
            },
            due: 0,
            dormant: 0,
        }
    }

    // The old box and no word.
    fn refused(self, number: u8) -> Stepped
        ensures { result ≡ stepped (refused number self) }
    {
        Stepped {
            refusal: number,
            sent: 0,
            word: 0,
            rest: 0,
            next: self,
        }
    }

    // The ball moved.
    pub fn motion(mut self, dx: i16, dy: i16) -> Stepped
        ensures { StepPromise self (Motion dx dy) result }
    {
        if !self.good() {
            return self.refused(BAD_STATE);
        }
        if self.dormant != 1 {
            self = self.on_motion(dx, dy);
        }
        self.quietly()
    }

    // The buttons are now 4L+2M+R.
    pub fn buttons(mut self, n: u8) -> Stepped
        ensures { StepPromise self (Buttons n) result }
    {
        if !self.good() {
            return self.refused(BAD_STATE);
        }
        if MOST_BUTTONS < n {
            return self.refused(BAD_BUTTONS);
        }
        if self.dormant != 1 {
            self = self.on_buttons(n);
        }
        self.quietly()
    }

    // A byte of the host's: it wakes a dormant box.
    pub fn host(mut self, byte: u8) -> Stepped
        ensures { StepPromise self (Host byte) result }
    {
        if !self.good() {
            return self.refused(BAD_STATE);
        }
        if self.dormant == 1 {
            self = self.woken();
            return self.quietly();
        }
        self.on_host(byte)
    }

    // Latching, when nothing is going.
    pub fn latch(mut self) -> Stepped
        ensures { StepPromise self Latch result }
    {
        if !self.good() {
            return self.refused(BAD_STATE);
        }
        if self.dormant != 1 {
            self = self.latching();
        }
        self.quietly()
    }

    // The next byte is sent, or a silence. A dormant box has nothing going.
    pub fn send(self) -> Stepped
        ensures { StepPromise self Send result }
    {
        if !self.good() {
            return self.refused(BAD_STATE);
        }
        self.sending()
    }

    // The report interval is over.
    pub fn period(mut self) -> Stepped
        ensures { StepPromise self Period result }
    {
        if !self.good() {
            return self.refused(BAD_STATE);
        }
        if self.dormant != 1 {
            self = self.on_period();
        }
        self.quietly()
    }

    // An event: one of the six. Other forms of this crate missed the box's ceilings of bench/guard: the six as calls of one `step`, by 15 %; derived equality,
    // fields without copies and the library's methods, by up to 9.
    pub fn step(self, event: Event) -> Stepped
        ensures { StepPromise self event result }
    {
        match event {
            Event::Motion(dx, dy) => self.motion(dx, dy),
            Event::Buttons(n) => self.buttons(n),
            Event::Host(byte) => self.host(byte),
            Event::Latch => self.latch(),
            Event::Send => self.send(),
            Event::Period => self.period(),
        }
    }
}
