// The library's face for C: its states and answers as structs of plain numbers, its functions under plain names.
#![tactic(auto)]

use port::Port;
use puckreader::PuckReader;
use replies::Came;
use vsxxx::SelfTest;
use wire::Report;

pub mod boxes;
pub mod bridges;
pub mod encoder;
pub mod listers;
pub mod ports;
pub mod pucks;
pub mod readbacks;
pub mod readers;
pub mod salvages;
pub mod told;
pub mod version;
pub mod watches;
pub mod yards;

// A reader as C holds it: the mark that it awaits a silence is 0 or 1.
#[repr(C)]
#[derive(Clone, Copy, Drop)]
pub struct HeldReader {
    pub format: u8,
    pub kept: [u8; 5],
    pub count: u8,
    pub awaiting: u8,
}

// A new reader, or why there is none of this letter.
#[repr(C)]
#[derive(Clone, Copy, Drop)]
pub struct FreshReader {
    pub refusal: u8,
    pub reader: HeldReader,
}

// What a word is answered by: how many reports, 0 or 1, how many bytes dropped, and the report, zeros where there is none.
#[repr(C)]
#[derive(Clone, Copy, Drop)]
pub struct ReadWord {
    pub refusal: u8,
    pub reports: u8,
    pub dropped: u8,
    pub next: HeldReader,
    pub report: Report,
}

// What a long read gives back.
#[repr(C)]
#[derive(Clone, Copy, Drop)]
pub struct ReadWords {
    pub refusal: u8,
    pub next: HeldReader,
    pub taken: usize,
    pub reports: usize,
    pub dropped: usize,
}

// What a byte, a wait or a loss gives back to the port: how many words it tells, 0 or 1, the word, 0 where there is none, and the port.
#[repr(C)]
#[derive(Clone, Copy, Drop)]
pub struct PortWord {
    pub words: u8,
    pub word: u16,
    pub next: Port,
}

// What the encoder answers: 0 or a refusal, and how many bytes it wrote.
#[repr(C)]
#[derive(Clone, Copy, Drop)]
pub struct Encoding {
    pub refusal: u8,
    pub length: usize,
}

// A lister as C holds it: whether it has ended is 0 or 1.
#[repr(C)]
#[derive(Clone, Copy, Drop)]
pub struct HeldLister {
    pub line: u32,
    pub ended: u8,
    pub held: [u8; 5],
    pub count: usize,
    pub reader: HeldReader,
}

// What a call gives back.
#[repr(C)]
#[derive(Clone, Copy, Drop)]
pub struct ListedBytes {
    pub refusal: u8,
    pub ended: u8,
    pub taken: usize,
    pub written: usize,
    pub next: HeldLister,
}

// A bridge as C holds it: whether there is a base and whether the middle was down are 0 or 1; the base stands at the end.
#[repr(C)]
#[derive(Clone, Copy, Drop)]
pub struct HeldBridge {
    pub reader: HeldReader,
    pub based: u8,
    pub middle: u8,
    pub presses: u16,
    pub x: i16,
    pub y: i16,
}

// A new bridge, or why there is none of this letter.
#[repr(C)]
#[derive(Clone, Copy, Drop)]
pub struct FreshBridge {
    pub refusal: u8,
    pub bridge: HeldBridge,
}

// What a long call gives back.
#[repr(C)]
#[derive(Clone, Copy, Drop)]
pub struct ConvertedWords {
    pub refusal: u8,
    pub next: HeldBridge,
    pub taken: usize,
    pub reports: usize,
    pub sent: usize,
    pub dropped: usize,
}

// What a salvage tells: whether every line had room is 0 or 1.
#[repr(C)]
#[derive(Clone, Copy, Drop)]
pub struct SalvagedBytes {
    pub whole: u8,
    pub written: usize,
}

// A reader that is told of replies, as C holds it: the reply that is awaited is a number, 0 where none is.
#[repr(C)]
#[derive(Clone, Copy, Drop)]
pub struct HeldTold {
    pub reader: HeldReader,
    pub awaited: u8,
    pub came: Came,
}

// What became of a reply, by its number: 0 nothing yet, 1 ACK, 2 a format, 3 a format and a mode, 4 buttons, 5 broken behind the bytes that had come; zeros elsewhere.
#[repr(C)]
#[derive(Clone, Copy, Drop)]
pub struct HeldReply {
    pub kind: u8,
    pub format: u8,
    pub mode: u8,
    pub buttons: u8,
    pub came: Came,
}

// A new reader that is told of replies, or why there is none of this letter.
#[repr(C)]
#[derive(Clone, Copy, Drop)]
pub struct FreshTold {
    pub refusal: u8,
    pub told: HeldTold,
}

// What a telling gives back: also how many bytes of an unfinished reply it discards.
#[repr(C)]
#[derive(Clone, Copy, Drop)]
pub struct ToldCommand {
    pub refusal: u8,
    pub discarded: u8,
    pub next: HeldTold,
}

// What a word is answered by: what became of the reply, and the report reader's own answer as in ReadWord.
#[repr(C)]
#[derive(Clone, Copy, Drop)]
pub struct HeardWord {
    pub refusal: u8,
    pub reports: u8,
    pub dropped: u8,
    pub reply: HeldReply,
    pub next: HeldTold,
    pub report: Report,
}

// What a long read gives back, and what became of the reply.
#[repr(C)]
#[derive(Clone, Copy, Drop)]
pub struct HeardWords {
    pub refusal: u8,
    pub reply: HeldReply,
    pub next: HeldTold,
    pub taken: usize,
    pub reports: usize,
    pub dropped: usize,
}

// The reports, 0 or 1, and the bytes dropped of an answer, and the report, zeros where there is none.
#[derive(Clone, Copy, Drop)]
pub(crate) struct Own {
    pub reports: u8,
    pub dropped: u8,
    pub report: Report,
}

// What a word is answered by: how many movements and how many self-tests, 0 or 1, how many bytes dropped, and the report, zeros where there is none.
#[repr(C)]
#[derive(Clone, Copy, Drop)]
pub struct ReadPuckWord {
    pub refusal: u8,
    pub movements: u8,
    pub tests: u8,
    pub dropped: u8,
    pub next: PuckReader,
    pub movement: Report,
    pub test: SelfTest,
}

// What a long read gives back.
#[repr(C)]
#[derive(Clone, Copy, Drop)]
pub struct ReadPuckWords {
    pub refusal: u8,
    pub next: PuckReader,
    pub taken: usize,
    pub reports: usize,
    pub dropped: usize,
}
