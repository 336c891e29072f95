// The bridge to recorders that know only V: line words of any format in, V bytes out. Here stand its parts, its numbers, and what a user calls.
#![tactic(auto)]

ghost use Rattle.std.specs.Prelude.{◌≡◌};
ghost use Rattle.wire.specs.Line.{letter_of};
ghost use Rattle.wire.specs.declared.Format.TheVariants.{FiveByte};
ghost use Rattle.reader.specs.State.{fresh};
ghost use Rattle.bridge.specs.Line.{converted_in};
ghost use Rattle.bridge.specs.Promises.{with_none, new_in, FreshPromise, GoodPromise, ConvertPromise};

use crate::line::converted;
use reader::Reader;
use wire::Refusal;

mod line;
mod remembered;
mod splitting;

// The position of the last report of A, where there was one. A flag with numbers beside it, and no Option: C hands in any such three, `bridge_back` of
// istrolf gives each back as it came, and `good` and `convert` refuse numbers other than 0 beside no base, which an Option could not hold.
#[derive(Clone, Copy, Drop)]
pub struct Base {
    pub set: bool,
    pub x: i16,
    pub y: i16,
}

// What is remembered of the reports so far: the base, whether the middle button was down in the last, and how often it was pressed.
#[derive(Clone, Copy, Drop)]
pub struct Past {
    pub base: Base,
    pub middle: bool,
    pub presses: u16,
}

// The reader of the format that comes in, and what is remembered of its reports.
#[derive(Clone, Copy, Drop)]
pub struct Bridge {
    pub reader: Reader,
    pub past: Past,
}

// A movement on both axes, north positive.
#[derive(Clone, Copy, Drop)]
pub struct Move {
    pub x: i32,
    pub y: i32,
}

// What a long call gives back: why it is refused, if it is, the words taken, the reports that came in, the V reports written and the bytes dropped.
#[derive(Clone, Copy, Drop)]
pub struct Converted {
    pub refusal: Option<Refusal>,
    pub next: Bridge,
    pub taken: usize,
    pub reports: usize,
    pub sent: usize,
    pub dropped: usize,
}

// A fresh bridge of U, where there is none of a letter.
impl Default for Bridge {
    ghost is_default = { λ b. b ≡ with_none (fresh (letter_of FiveByte)) };

    fn default() -> Bridge {
        Bridge {
            reader: Reader::default(),
            past: Past::none(),
        }
    }
}

impl Bridge {
    // A fresh bridge: a fresh reader, no base, the middle up, no press. A letter that is not in the table is refused.
    pub fn fresh(letter: u8) -> Result<Bridge, Refusal>
        ensures { FreshPromise letter (new_in result) }
    {
        let reader = Reader::fresh(letter)?;
        Ok(Bridge {
            reader,
            past: Past::none(),
        })
    }

    // Whether the bridge is good: a long call of any other is refused with 6.
    pub fn good(self) -> bool
        ensures { GoodPromise self result }
    {
        self.reader.good() & self.past.base.good(self.reader.format)
    }

    // A line of words, and the bytes of its V reports to a lent slice.
    pub fn convert(self, words: &[u16], out: &mut [u8]) -> Converted
        ensures { ConvertPromise self words.now out.old (converted_in result) out.new }
    {
        if !self.good() {
            return converted(Some(Refusal::BadState), self, 0, 0, 0, 0);
        }
        self.line(words, out)
    }
}
