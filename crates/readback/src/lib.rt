// The reader of listings: the bytes of a listing in, its items out, five numbers each. A line's fields are read by their kinds (fields), its letter and its
// fields to an item (items), a line in its place among the others (steps), and the lines of a piece one after the other (pieces); and they are rewritten at the other width (rewriting).
#![tactic(auto)]

use listing::Item;

mod fields;
mod items;
mod pieces;
mod rewriting;
mod steps;

// What is given back for a faulty line, and for a line number that does not fit the other width: the numbers of wire's refusals.
pub(crate) const FAULTY_LINE: u8 = 7;

pub(crate) const TOO_WIDE: u8 = 15;

// A line is faulty.
#[derive(Clone, Copy, Drop)]
pub(crate) struct Faulty;

// The line at the front of a piece: the next reader, its item, if it has one, and its bytes with the newline.
#[derive(Clone, Copy, Drop)]
pub(crate) struct Front {
    pub next: Readback,
    pub given: Option<Item>,
    pub taken: usize,
}

// The kinds of fields: the number of a line, a count, a number, buttons, and `over`.
#[derive(Clone, Copy, Drop)]
pub(crate) enum Kind {
    Line,
    Count,
    Number,
    Pressed,
    Over,
}

// The value of a field of a line, behind its tab, and the place behind it.
#[derive(Clone, Copy, Drop)]
pub(crate) struct Field {
    pub value: i64,
    pub end: usize,
}

// How far a listing has been read: the width of its line numbers, 0 before its first line; whether its last line has
// come, and whether it is a salvage's, each 0 or 1; the last line number; and the lines passed.
#[repr(C)]
#[derive(Clone, Copy, Drop)]
pub struct Readback {
    pub width: u8,
    pub ended: u8,
    pub salvage: u8,
    pub last: u32,
    pub lines: u32,
}

// What a line does that may stand there: the next reader, and its item, if it has one.
#[derive(Clone, Copy, Drop)]
pub(crate) struct Passed {
    pub next: Readback,
    pub given: Option<Item>,
}

// What rewriting gives back, as C has it, so that a refusal is a number: 0, 6 or 7 as above, or 15 for a line number that does not fit the other width; the next reader; the bytes taken and written; and
// the place of the line that was not rewritten among the lines, counted from 1, or 0.
#[repr(C)]
#[derive(Clone, Copy, Drop)]
pub struct Rewritten {
    pub refusal: u8,
    pub line: u32,
    pub taken: usize,
    pub written: usize,
    pub next: Readback,
}

// What a call gives back, as C has it: 0, 6 for a reader that breaks its rules, or 7 for a faulty line; the next reader; the bytes taken and the items written; and the
// place of the faulty line among the lines, counted from 1, or 0.
#[repr(C)]
#[derive(Clone, Copy, Drop)]
pub struct Back {
    pub refusal: u8,
    pub line: u32,
    pub taken: usize,
    pub items: usize,
    pub next: Readback,
}
