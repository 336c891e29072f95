// What the programs that listen to a serial line share: how they are called, whether the line is gone (Clock), and the turns in which they hear it
// (Session).
#![tactic(auto)]

ghost use Rattle.std.specs.Prelude.{◌≡◌, Option};
ghost use Rattle.hearing.specs.Called.{letter_in, small_in, tenths_in};
ghost use Rattle.hearing.specs.Clock.{turned_of};

pub use session::{Names, Session, TURNS, Teller};
use text::number;

mod session;

// The letter of a format, if a word is one.
pub fn letter_in(word: &[u8]) -> Option<u8>
    ensures { result ≡ letter_in word.now }
{
    match word {
        [letter] if wire::known(*letter) => Some(*letter),
        _ => None,
    }
}

// A number from 1 to 255.
fn small(x: i64) -> Option<u8>
    ensures { result ≡ small_in x }
{
    if x < 1 {
        return None;
    }
    if 255 < x {
        return None;
    }
    Some(x as u8)
}

// How many tenths of a second make a silence, if a word is such a number.
pub fn tenths_in(word: &[u8]) -> Option<u8>
    ensures { result ≡ tenths_in word.now }
{
    match number(word, 1) {
        None => None,
        Some(x) => small(x),
    }
}

// The reads in a row that brought nothing.
#[derive(Clone, Copy, Drop)]
pub struct Clock {
    pub empty: u8,
}

impl Clock {
    // A read: whether it brought bytes, and whether it was in the same second as the first of those that brought nothing. A read
    // that waits for a tenth of a second is not answered twenty times in a second: then the line is gone, and there is no clock.
    pub fn turned(self, came: bool, same: bool) -> Option<Clock>
        ensures { result ≡ turned_of self came same }
    {
        if came {
            return Some(Clock { empty: 0 });
        }
        if self.empty < 19 {
            return Some(Clock {
                empty: self.empty + 1,
            });
        }
        if same {
            return None;
        }
        Some(Clock { empty: 0 })
    }
}
