// The reader: line words in, reports out. Here stand its parts, its words and numbers, and what a user calls.
#![tactic(auto)]

ghost use Rattle.std.specs.Prelude.{◌≡◌};
ghost use Rattle.wire.specs.Line.{letter_of};
ghost use Rattle.wire.specs.declared.Format.TheVariants.{FiveByte};
ghost use Rattle.reader.specs.State.{fresh, new_in, read_in};
ghost use Rattle.reader.specs.Line.{reading_in};
ghost use Rattle.reader.specs.Telling.{answers_by};
ghost use Rattle.reader.specs.Promises.{FreshPromise, StepPromise, ReadPromise, AnswersPromise};

use crate::line::reading;
use crate::state::no_bytes;
use crate::telling::so_far;
use wire::{FORMAT_U, Refusal, Report};

mod good;
mod letters;
mod line;
mod rules;
mod state;
mod telling;
mod whole;

// A format by its letter, the bytes kept and how many, and whether it awaits a silence.
#[derive(Clone, Copy, Drop)]
pub struct Reader {
    pub format: u8,
    pub kept: [u8; 5],
    pub count: u8,
    pub awaiting: bool,
}

// What a word is answered by: nothing, a report, or a number of bytes dropped. Nothing is an answer, one of three.
#[derive(Clone, Copy, Drop)]
pub enum Answer {
    Nothing,
    Report(Report),
    Dropped(u8),
}

// What a step gives back.
#[derive(Clone, Copy, Drop)]
pub struct Step {
    pub next: Reader,
    pub answer: Answer,
}

// What a long read gives back: why it is refused, if it is, the words taken, the reports written and the bytes dropped.
#[derive(Clone, Copy, Drop)]
pub struct Reading {
    pub refusal: Option<Refusal>,
    pub next: Reader,
    pub taken: usize,
    pub reports: usize,
    pub dropped: usize,
}

// What a telling of answers gives back: why it is refused, if it is, the words taken, and the numbers written.
#[derive(Clone, Copy, Drop)]
pub struct Answers {
    pub refusal: Option<Refusal>,
    pub next: Reader,
    pub taken: usize,
    pub written: usize,
}

// A fresh reader of U, where there is none of a letter.
impl Default for Reader {
    ghost is_default = { λ r. r ≡ fresh (letter_of FiveByte) };

    #[inline(always)]
    fn default() -> Reader {
        no_bytes(FORMAT_U, true)
    }
}

impl Reader {
    // A fresh reader: no bytes, awaiting in U, T, W. A letter that is not in the table is refused.
    pub fn fresh(letter: u8) -> Result<Reader, Refusal>
        ensures { FreshPromise letter (new_in result) }
    {
        if !wire::known(letter) {
            return Err(Refusal::NoSuchLetter);
        }
        Ok(no_bytes(letter, !wire::marked(letter)))
    }

    // One word. A refusal leaves the reader as it was.
    pub fn step(self, word: u16) -> Result<Step, Refusal>
        ensures { StepPromise self word (read_in self result) }
    {
        if !self.good() {
            return Err(Refusal::BadState);
        }
        self.heard(word)
    }

    // A line of words, and the numbers of its reports to a lent slice.
    pub fn read(self, words: &[u16], out: &mut [i16]) -> Reading
        ensures { ReadPromise self words.now out.old (reading_in result) out.new }
    {
        if !self.good() {
            return reading(Some(Refusal::BadState), self, 0, 0, 0);
        }
        self.line(words, out)
    }

    // A line of words, and what each is answered by to a lent slice: 0 for nothing, the number of bytes dropped, or -1 and the five numbers of a report.
    pub fn answers(self, words: &[u16], out: &mut [i16]) -> Answers
        ensures { AnswersPromise self words.now out.old (answers_by result) out.new }
    {
        if !self.good() {
            return so_far(Some(Refusal::BadState), self, 0, 0);
        }
        self.told(words, out)
    }
}
