// The listing of a recording: a lister that is fed the input in pieces of any size. The scanner finds numbered words in the input (lines, scanning),
// the reader makes items of them (items), and the items are printed (printing). Lines that lie whole in a piece are taken some at a time (batches, stamped).
#![tactic(auto)]

ghost use Rattle.listing.specs.Promises.{SalvagePromise, LinePromise};

use reader::Reader;
use text::Text;
use wire::Refusal;

mod batches;
mod feeding;
mod items;
mod lines;
mod printing;
mod scanning;
mod shown;
mod stamped;

// The width of line numbers.
pub(crate) const WIDTH: u8 = 6;

// What a line says.
#[derive(Clone, Copy, Drop)]
pub(crate) enum Line {
    Bad,
    Format(u8),
    Word(u16),
}

// How far a recording has been scanned: the lines passed, whether it has ended, and the bytes of the unfinished line, beside their number (no heap).
#[derive(Clone, Copy, Drop)]
pub struct Scanner {
    pub line: u32,
    pub ended: bool,
    pub held: [u8; 5],
    pub count: usize,
}

// What is found in a recording: nothing yet, one of six kinds and so no Option; its format; the number of a line and its word; the number of a bad line; a line too many; and its end.
#[derive(Clone, Copy, Drop)]
pub enum Found {
    Nothing,
    Format(u8),
    Word(u32, u16),
    Bad(u32),
    Over,
    End,
}

// A scanner, and what it found.
#[derive(Clone, Copy, Drop)]
pub struct Scan {
    pub next: Scanner,
    pub found: Found,
}

// The middle button, which is not known in V.
#[derive(Clone, Copy, Drop)]
pub enum Middle {
    Up,
    Down,
    Unknown,
}

#[derive(Clone, Copy, Drop)]
pub struct Buttons {
    pub left: bool,
    pub middle: Middle,
    pub right: bool,
}

// What a line of the listing shows, by its letter: D, a line and the bytes dropped; R, a line, the buttons, x and y; H, the bytes kept; E, a bad
// line or `over`.
#[derive(Clone, Copy, Drop)]
pub enum Item {
    D(u32, u16),
    R(u32, Buttons, i64, i64),
    H(u16),
    E(u32),
    Over,
}

// A reader, and what it gave.
#[derive(Clone, Copy, Drop)]
pub(crate) struct Gave {
    pub next: Reader,
    pub given: Option<Item>,
}

// A field of a line: the number of a line, a number, buttons, or `over`.
#[derive(Clone, Copy, Drop)]
pub enum Field {
    Line(u32),
    Number(i64),
    Pressed(Buttons),
    Over,
}

// The scanner, and the reader of what it finds.
#[derive(Clone, Copy, Drop)]
pub struct Lister {
    pub scanner: Scanner,
    pub reader: Reader,
}

// What a call gives back: why it is refused, if it is; the next lister; the bytes taken and written; and whether it has ended.
#[derive(Clone, Copy, Drop)]
pub struct Listed {
    pub refusal: Option<Refusal>,
    pub next: Lister,
    pub taken: usize,
    pub written: usize,
    pub ended: bool,
}

// A lister, and the text that it writes.
#[derive(Clone, Copy, Drop)]
pub(crate) struct Turn {
    pub next: Lister,
    pub text: Text,
}

// The bytes at the front of a piece that are taken together: the lister behind them, how many they are, and the places of their text.
#[derive(Clone, Copy, Drop)]
pub(crate) struct Front {
    pub next: Lister,
    pub taken: usize,
    pub used: usize,
}

// The bytes of a line with its newline, and its word.
#[derive(Clone, Copy, Drop)]
pub(crate) struct Told {
    pub taken: usize,
    pub word: u16,
}

// The number of a line between tabs, but for its last digit, which stands beside.
#[derive(Clone, Copy, Drop)]
pub(crate) struct Stamp {
    pub bytes: [u8; 8],
    pub last: u8,
}

// The first line of a salvage: `S` and the width of line numbers.
pub fn salvage_opening() -> Text
    ensures { SalvagePromise result }
{
    printing::opening(true, WIDTH)
}

// A line of a listing, or of a salvage's, at a width: the first where nothing is given, or an item's.
pub fn line_at(given: Option<Item>, salvage: bool, width: u8) -> Text
    ensures { LinePromise given salvage width result }
{
    match given {
        None => printing::opening(salvage, width),
        Some(item) => printing::line(item, width),
    }
}
