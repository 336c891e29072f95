// The seven formats of the old mice: a report and its bytes.
#![tactic(auto)]

ghost use Rattle.wire.specs.Promises.{KnownPromise, SizePromise, MarkedPromise, FitsPromise, ReportPromise, EncodePromise};

mod digits;
mod encoder;
mod holds;
mod line;
mod parity;
mod places;
mod reading;
mod refusal;
mod signed;
mod table;

use encoder::by_letter;
pub use encoder::length_in;
use line::format_of;
use reading::{report, report_in};
pub use refusal::{Refusal, number_in};

// The words on the line that are no bytes: "256 a break or a byte that arrived damaged, 257 a silence of one character time".
pub const BREAK: u16 = 256;

pub const SILENCE: u16 = 257;

// The letters of the formats.
pub const FORMAT_S: u8 = b'S';

pub const FORMAT_V: u8 = b'V';

pub const FORMAT_A: u8 = b'A';

pub const FORMAT_B: u8 = b'B';

pub const FORMAT_U: u8 = b'U';

pub const FORMAT_T: u8 = b'T';

pub const FORMAT_W: u8 = b'W';

// The numbers given back: success, and the refusals that several crates give.
pub const SUCCESS: u8 = 0;

pub const BAD_LETTER: u8 = 1;

pub const BAD_WORD: u8 = 4;

pub const BAD_STATE: u8 = 6;

// A report: the buttons as 4L+2M+R, the movement, and the second pair, which is zero except in U. North is positive.
#[repr(C)]
#[derive(Clone, Copy, Debug, PartialEq, Eq, Drop)]
pub struct Report {
    pub buttons: u8,
    pub x1: i16,
    pub y1: i16,
    pub x2: i16,
    pub y2: i16,
}

// The formats of the letters S, V, A, B, U, T, W.
#[derive(Clone, Copy, Debug, PartialEq, Eq, Drop)]
pub enum Format {
    Mm,
    Microsoft,
    Absolute,
    Relative,
    FiveByte,
    ThreeByte,
    Hexadecimal,
}

// The movements that a format holds, from low to high. A RangeInclusive is no plainer: it is not Copy, and the ballbox takes the two ends by name.
#[derive(Clone, Copy, Debug, PartialEq, Eq, Drop)]
pub struct Range {
    pub low: i16,
    pub high: i16,
}

// The four movements of a report.
#[derive(Clone, Copy, Debug, PartialEq, Eq, Drop)]
pub enum Movement {
    FirstX,
    FirstY,
    SecondX,
    SecondY,
}

// Whether a letter is in the table.
#[tactic(auto, unfolding(crate::specs::Line::known))]
#[inline(always)]
pub fn known(letter: u8) -> bool
    ensures { KnownPromise letter result }
{
    format_of(letter).is_some()
}

// How many bytes a report has; 0 for a letter that is not in the table.
#[tactic(auto, unfolding(crate::specs::Line::size_by))]
#[inline(always)]
pub fn size(letter: u8) -> usize
    ensures { SizePromise letter result }
{
    match format_of(letter) {
        Some(f) => f.size(),
        None => 0,
    }
}

// Whether the first byte of a report is marked.
#[tactic(auto, unfolding(crate::specs::Line::marked_by))]
#[inline(always)]
pub fn marked(letter: u8) -> bool
    ensures { MarkedPromise letter result }
{
    match format_of(letter) {
        Some(f) => f.is_marked(),
        None => false,
    }
}

// Whether a byte is valid at a place of a report: 0 is the first, any other a later one. The place is looked at before the format: the other way round
// the calls of the yard cost a sixth more (bench/guard).
#[inline(always)]
pub fn fits(letter: u8, place: u8, byte: u8) -> bool
    ensures { FitsPromise letter place byte result }
{
    if place == 0 {
        places::first_by(letter, byte)
    } else {
        places::later_by(letter, byte)
    }
}

// The report that bytes stand for; a format of three bytes reads the first three.
#[tactic(auto, unfolding(crate::specs::Reading::report_by))]
#[inline(always)]
pub fn report_of(letter: u8, bytes: [u8; 5]) -> Report
    ensures { ReportPromise letter bytes result }
{
    match format_of(letter) {
        Some(f) => report_in(f, bytes),
        None => report(0, 0, 0),
    }
}

// Writes a report's bytes at the front of a buffer, and nothing after them. A refusal writes nothing. Each letter has a
// call of its own, so that the compiler makes a copy of the rules for it.
#[tactic(auto, unfolding(crate::specs::Encoder::encode_in, crate::specs::Line::named_by))]
pub fn encode(letter: u8, report: Report, buffer: &mut [u8]) -> Result<usize, Refusal>
    ensures { EncodePromise letter report buffer.old result buffer.new }
{
    match letter {
        FORMAT_S => by_letter(FORMAT_S, report, buffer),
        FORMAT_V => by_letter(FORMAT_V, report, buffer),
        FORMAT_A => by_letter(FORMAT_A, report, buffer),
        FORMAT_B => by_letter(FORMAT_B, report, buffer),
        FORMAT_U => by_letter(FORMAT_U, report, buffer),
        FORMAT_T => by_letter(FORMAT_T, report, buffer),
        FORMAT_W => by_letter(FORMAT_W, report, buffer),
        _ => Err(Refusal::NoSuchLetter),
    }
}
