// Why a call is refused, and the number that is given back for it.
ghost use Rattle.std.specs.Prelude.{◌≡◌};
ghost use Rattle.wire.specs.Refusals.{refusal_for};
ghost use Rattle.wire.specs.Promises.{NumberPromise, RefusalPromise};

use crate::{BAD_LETTER, BAD_STATE, BAD_WORD, Movement, SUCCESS};

// The reasons that several crates give, in the order of their numbers.
#[derive(Clone, Copy, Debug, PartialEq, Eq, Drop)]
pub enum Refusal {
    NoSuchLetter,
    ButtonsAboveSeven,
    BadWord,
    BufferTooShort,
    BadState,
    FaultyLine,
    FirstXNotHeld,
    FirstYNotHeld,
    SecondXNotHeld,
    SecondYNotHeld,
    NoReply,
    MarkedFormat,
    TooManyWords,
    NumberTooWide,
}

impl Refusal {
    // The number given back; 0 is success, and 2 is given no more.
    #[inline(always)]
    pub fn number(self) -> u8
        ensures { NumberPromise self result }
    {
        match self {
            Refusal::NoSuchLetter => BAD_LETTER,
            Refusal::ButtonsAboveSeven => 3,
            Refusal::BadWord => BAD_WORD,
            Refusal::BufferTooShort => 5,
            Refusal::BadState => BAD_STATE,
            Refusal::FaultyLine => 7,
            Refusal::FirstXNotHeld => 8,
            Refusal::FirstYNotHeld => 9,
            Refusal::SecondXNotHeld => 10,
            Refusal::SecondYNotHeld => 11,
            Refusal::NoReply => 12,
            Refusal::MarkedFormat => 13,
            Refusal::TooManyWords => 14,
            Refusal::NumberTooWide => 15,
        }
    }
}

// The number given back for an answer: 0 for success.
#[inline(always)]
pub fn number_in<T>(answer: &Result<T, Refusal>) -> u8
    ensures { RefusalPromise answer.now result }
{
    match answer {
        Ok(_) => SUCCESS,
        Err(refusal) => refusal.number(),
    }
}

// The refusal of a report that has this movement, which its format does not hold.
impl From<Movement> for Refusal {
    ghost from_gives = { λ movement refusal. refusal ≡ refusal_for movement };

    #[inline(always)]
    fn from(movement: Movement) -> Self {
        match movement {
            Movement::FirstX => Refusal::FirstXNotHeld,
            Movement::FirstY => Refusal::FirstYNotHeld,
            Movement::SecondX => Refusal::SecondXNotHeld,
            Movement::SecondY => Refusal::SecondYNotHeld,
        }
    }
}
