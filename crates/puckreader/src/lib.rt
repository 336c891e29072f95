// The reader of the VSXXX: line words in, movements and self-tests out. Here stand its parts, its words and numbers, and what a user calls.
#![tactic(auto)]

ghost use Rattle.puckreader.specs.Rules.{read_in};
ghost use Rattle.puckreader.specs.Line.{reading_in};
ghost use Rattle.puckreader.specs.Promises.{FreshPromise, StepPromise, ReadPromise};

use crate::line::reading;
use crate::rules::holding;
use vsxxx::SelfTest;
use wire::{Refusal, Report};

mod good;
mod line;
mod rules;

// The bytes kept and how many.
#[repr(C)]
#[derive(Clone, Copy, Drop)]
pub struct PuckReader {
    pub kept: [u8; 3],
    pub count: u8,
}

// What a word is answered by: nothing, a movement, a self-test, or a number of bytes dropped. Nothing is an answer, one of four.
#[derive(Clone, Copy, Drop)]
pub enum PuckAnswer {
    Nothing,
    Movement(Report),
    Test(SelfTest),
    Dropped(u8),
}

// What a word that is not refused gives: the reader behind it, and the answer.
#[derive(Clone, Copy, Drop)]
pub struct PuckStep {
    pub next: PuckReader,
    pub answer: PuckAnswer,
}

// What a long read gives back: why it is refused, if it is, the words taken, the reports written and the bytes dropped.
#[derive(Clone, Copy, Drop)]
pub struct PuckReading {
    pub refusal: Option<Refusal>,
    pub next: PuckReader,
    pub taken: usize,
    pub reports: usize,
    pub dropped: usize,
}

impl PuckReader {
    // A fresh reader: no bytes.
    pub fn fresh() -> PuckReader
        ensures { FreshPromise result }
    {
        holding(0, 0, 0, 0)
    }

    // One word; a refusal leaves the reader as it was.
    pub fn step(self, word: u16) -> Result<PuckStep, Refusal>
        ensures { StepPromise self word (read_in self result) }
    {
        if !self.good() {
            return Err(Refusal::BadState);
        }
        self.word(word)
    }

    // A line of words, and the numbers of its reports to a lent slice.
    pub fn read(self, words: &[u16], out: &mut [i16]) -> PuckReading
        ensures { ReadPromise self words.now out.old (reading_in result) out.new }
    {
        if !self.good() {
            return reading(Some(Refusal::BadState), self, 0, 0, 0);
        }
        self.line(words, out)
    }
}
