// A box to try: lines of events in, the lines of a recording out. What a line says (lines), what it does to the box and what is recorded of it (driving), the lines
// of a recording (recorded), and a driver that is fed its input in pieces of any size (feeding).
#![tactic(auto)]

use ballbox::{BallBox, Event};
use text::Text;
use wire::Refusal;

mod driving;
mod feeding;
mod lines;
mod recorded;

// The most lines, and the most slots of a line: as many as a recording has lines.
pub(crate) const MOST_LINES: u32 = 999_999;

// What a line says: nothing that a line may say; a format; an event; or so many slots, each a Latch and a Send.
#[derive(Clone, Copy, Drop)]
pub(crate) enum Order {
    Bad,
    Format(u8),
    Single(Event),
    Slots(u32),
}

// How far the events have come: the lines passed, whether it has ended, the bytes of the unfinished line, the slots of the last line that are still to come, and
// the box.
#[derive(Clone, Copy, Drop)]
pub struct Driver {
    pub line: u32,
    pub ended: bool,
    pub held: [u8; 15],
    pub count: usize,
    pub owed: u32,
    pub ball: BallBox,
}

// What a call gives back: why it is refused, if it is; the next driver; the bytes taken and written; and whether it has ended.
#[derive(Clone, Copy, Drop)]
pub struct Driven {
    pub refusal: Option<Refusal>,
    pub next: Driver,
    pub taken: usize,
    pub written: usize,
    pub ended: bool,
}

// What is recorded: the format, a word, or how it ended: the number of a line that is bad or was refused, or a line too many.
#[derive(Clone, Copy, Drop)]
pub(crate) enum Record {
    Format(u8),
    Word(u16),
    Bad(u32),
    Over,
}

// What a line leaves that is not the last: the box, and what is recorded. The last line is told by its record alone.
#[derive(Clone, Copy, Drop)]
pub(crate) struct Done {
    pub next: BallBox,
    pub given: Option<Record>,
}

// A driver, and the text that it writes.
#[derive(Clone, Copy, Drop)]
pub(crate) struct Turn {
    pub next: Driver,
    pub text: Text,
}

// The bytes of a piece that are taken together, one or none, and the turn that they make.
#[derive(Clone, Copy, Drop)]
pub(crate) struct Tick {
    pub taken: usize,
    pub turn: Turn,
}
