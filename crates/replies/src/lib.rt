// A reader that is told the command just sent: it reads exactly that reply, and then hands over to the report reader. Here stand its parts, its numbers, and
// what a user calls.
#![tactic(auto)]

ghost use Rattle.std.specs.Prelude.{◌≡◌};
ghost use Rattle.replies.specs.Rules.{heard_in};
ghost use Rattle.replies.specs.Line.{heard_line_in};
ghost use Rattle.replies.specs.Promises.{fresh_u, new_in, telling_in, FreshPromise, GoodPromise, TellPromise, StepPromise, ReadPromise};

use crate::replying::{awaiting, nothing};
use crate::rules::kind_of;
use reader::{Answer, Reader};
use wire::Refusal;

mod line;
mod replying;
mod rules;

// What was just sent: a command, by its byte, or a byte of any kind that woke a dormant box.
#[derive(Clone, Copy, Drop)]
pub enum Asked {
    Command(u8),
    Waking,
}

// A reply that may be awaited: that to a space or a waking byte, to `f`, to `t` or to 05H.
#[derive(Clone, Copy, Drop)]
pub enum Kind {
    Ack,
    Code,
    Letters,
    Buttons,
}

// The bytes of a reply that have come: how many, at most two, and 0 in the places behind them.
#[repr(C)]
#[derive(Clone, Copy, Drop)]
pub struct Came {
    pub count: u8,
    pub first: u8,
    pub second: u8,
}

// The reply that is awaited, if any, and what has come of it.
#[derive(Clone, Copy, Drop)]
pub struct Awaited {
    pub kind: Option<Kind>,
    pub came: Came,
}

// The report reader, and the reply that is awaited before it is given a word.
#[derive(Clone, Copy, Drop)]
pub struct ToldReader {
    pub reader: Reader,
    pub awaited: Awaited,
}

// What became of a reply: it is whole, with the format, the format and the mode, or the buttons that it tells; or it was broken, behind these bytes.
#[derive(Clone, Copy, Drop)]
pub enum Reply {
    Ack,
    Format(u8),
    Letters(u8, u8),
    Buttons(u8),
    Broken(Came),
}

// What a telling that is not refused gives: the reader that awaits the reply, and how many bytes of an unfinished one it discards.
#[derive(Clone, Copy, Drop)]
pub struct Told {
    pub next: ToldReader,
    pub discarded: u8,
}

// What a word that is not refused gives: the reader behind it, what became of the reply, where anything did, and the report reader's own answer.
#[derive(Clone, Copy, Drop)]
pub struct ToldStep {
    pub next: ToldReader,
    pub reply: Option<Reply>,
    pub answer: Answer,
}

// What a long read gives back: why it is refused, if it is, the words taken, the reports written, the bytes dropped, and what became of the reply, of which
// there is at most one.
#[derive(Clone, Copy, Drop)]
pub struct HeardLine {
    pub refusal: Option<Refusal>,
    pub next: ToldReader,
    pub taken: usize,
    pub reports: usize,
    pub dropped: usize,
    pub reply: Option<Reply>,
}

// The bytes of a reply at the front of a line: how many, what is awaited behind them, and the reply, where it is whole.
#[derive(Clone, Copy, Drop)]
pub(crate) struct Front {
    pub awaited: Awaited,
    pub taken: usize,
    pub reply: Option<Reply>,
}

// A fresh one of U, where there is none of a letter.
impl Default for ToldReader {
    ghost is_default = { λ s. s ≡ fresh_u };

    fn default() -> ToldReader {
        ToldReader {
            reader: Reader::default(),
            awaited: nothing(),
        }
    }
}

impl ToldReader {
    // A fresh report reader, and no reply is awaited. A letter that is not in the table is refused.
    pub fn fresh(letter: u8) -> Result<ToldReader, Refusal>
        ensures { FreshPromise letter (new_in result) }
    {
        let reader = Reader::fresh(letter)?;
        Ok(ToldReader {
            reader,
            awaited: nothing(),
        })
    }

    // Whether it is good: a telling, a step and a long read of any other is refused with 6.
    pub fn good(self) -> bool
        ensures { GoodPromise self result }
    {
        self.reader.good() & self.awaited.good()
    }

    // The command just sent is told, after any 256 that the command itself caused; an unfinished reply is replaced. A refusal leaves the reader as it was.
    pub fn tell(self, asked: Asked) -> Result<Told, Refusal>
        ensures { TellPromise self asked (telling_in self result) }
    {
        if !self.good() {
            return Err(Refusal::BadState);
        }
        let Some(kind) = kind_of(asked) else {
            return Err(Refusal::NoReply);
        };
        Ok(Told {
            next: ToldReader {
                reader: self.reader,
                awaited: awaiting(Some(kind)),
            },
            discarded: self.awaited.came.count,
        })
    }

    // One word. A refusal leaves the reader as it was.
    pub fn step(self, word: u16) -> Result<ToldStep, Refusal>
        ensures { StepPromise self word (heard_in self result) }
    {
        if !self.good() {
            return Err(Refusal::BadState);
        }
        self.word(word)
    }

    // A line of words, and the numbers of its reports to a lent slice.
    pub fn read(self, words: &[u16], out: &mut [i16]) -> HeardLine
        ensures { ReadPromise self words.now out.old (heard_line_in result) out.new }
    {
        if !self.good() {
            return HeardLine {
                refusal: Some(Refusal::BadState),
                next: self,
                taken: 0,
                reports: 0,
                dropped: 0,
                reply: None,
            };
        }
        self.line(words, out)
    }
}
