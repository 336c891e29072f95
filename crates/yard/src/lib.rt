// The yard check: whether a box of ours, set to a format and then asked only for reports, can send the words of a log. Here stand its parts, its
// numbers, and what a user calls.
#![tactic(auto)]

ghost use Rattle.std.specs.Prelude.{◌≡◌, length};
ghost use Rattle.yard.specs.Log.{log_told};
ghost use Rattle.yard.specs.Promises.{FreshPromise, StepPromise, check_of, CheckPromise};

use crate::rules::none_gone;
use wire::{FORMAT_U, Refusal, SUCCESS};

mod good;
mod log;
mod rules;
mod stands;

// How far a log has been checked: the format by its letter; of the report that is going the first byte, the last byte
// and how many have gone; and 1 where a word has come that no box could send, else 0.
#[repr(C)]
#[derive(Clone, Copy, Drop)]
pub struct Yard {
    pub format: u8,
    pub first: u8,
    pub last: u8,
    pub count: u8,
    pub ended: u8,
}

// A new check, or why there is none of this letter. C has this struct and the two below, so that they tell a refusal by its
// number, and a yes by 1.
#[repr(C)]
#[derive(Clone, Copy, Drop)]
pub struct NewYard {
    pub refusal: u8,
    pub yard: Yard,
}

// What a word gives back: 1 where a box can have sent it, with those before it, else 0.
#[repr(C)]
#[derive(Clone, Copy, Drop)]
pub struct Judged {
    pub refusal: u8,
    pub can: u8,
    pub next: Yard,
}

// What a log gives back: 1 where a box can send all of it, else 0, and how many of its words, from the first, it can.
#[repr(C)]
#[derive(Clone, Copy, Drop)]
pub struct Checked {
    pub refusal: u8,
    pub proper: u8,
    pub sendable: usize,
}

impl Yard {
    // A check that has seen no word. A letter that is not in the table is refused with 1 and a check of U.
    #[tactic(auto, unfolding(crate::specs::Promises::fresh_of))]
    pub fn fresh(letter: u8) -> NewYard
        ensures { FreshPromise letter result }
    {
        if wire::known(letter) {
            NewYard {
                refusal: SUCCESS,
                yard: none_gone(letter),
            }
        } else {
            NewYard {
                refusal: Refusal::NoSuchLetter.number(),
                yard: none_gone(FORMAT_U),
            }
        }
    }

    // One word. Behind a word that cannot be sent none can.
    #[tactic(auto, unfolding(crate::specs::Promises::step_of))]
    pub fn step(self, word: u16) -> Judged
        ensures { StepPromise self word result }
    {
        if self.good() {
            self.judged(self.word(word))
        } else {
            self.judged(Err(Refusal::BadState))
        }
    }
}

// How many of a log's words can be sent, or why it is refused.
#[tactic(auto, unfolding(crate::specs::Promises::check_of))]
fn sendable(letter: u8, words: &[u16]) -> Result<usize, Refusal>
    ensures { log_told (length words.now) result ≡ check_of letter words.now }
{
    if wire::known(letter) {
        log::sendable(none_gone(letter), words)
    } else {
        Err(Refusal::NoSuchLetter)
    }
}

// A whole log. A word above 257 anywhere in it is refused with 4, behind one that cannot be sent too.
pub fn check(letter: u8, words: &[u16]) -> Checked
    ensures { CheckPromise letter words.now result }
{
    match sendable(letter, words) {
        Ok(sendable) => Checked {
            refusal: SUCCESS,
            proper: u8::from(sendable == words.len()),
            sendable,
        },
        Err(refusal) => Checked {
            refusal: refusal.number(),
            proper: 0,
            sendable: 0,
        },
    }
}
