// The numbers of many reports: how often each button went down.
ghost use Rattle.std.specs.Prelude.{◌≡◌, cond, ◌+◌, ◌<◌, ◌^◌};
ghost use Rattle.numbers.specs.Bits.{bit};
ghost use Rattle.saves.specs.Rules.{low_three};
ghost use Rattle.saves.specs.Promises.{OverPromise};
ghost use Rattle.saves.specs.Parts.{with_report};

use crate::{Watch, Watched};

// The buttons that a number tells: none where it is below 0, else its low three bits.
fn low_three(number: i16) -> u8
    ensures { result ≡ low_three number }
{
    if number < 0 {
        0
    } else {
        (number as u16 % 8) as u8
    }
}

// Whether the lowest button is down counts one.
fn lowest(buttons: u8) -> usize
    ensures { result ≡ cond (bit 0 buttons) 1 0 }
{
    usize::from(buttons % 2 == 1)
}

impl Watched {
    // The buttons of a report more.
    fn with(self, now: u8) -> Watched
        requires { (self.left + 1 < 2 ^ 64) × (self.middle + 1 < 2 ^ 64) × (self.right + 1 < 2 ^ 64) }
        ensures { result ≡ with_report self now }
    {
        let told = self.next.hears(now);
        let down = told.down;
        let left = lowest(down / 4);
        let middle = lowest(down / 2);
        let right = lowest(down);
        Watched {
            next: told.next,
            left: self.left + left,
            middle: self.middle + middle,
            right: self.right + right,
        }
    }
}

impl Watch {
    // The reports, one after the other.
    pub(crate) fn line(self, numbers: &[i16]) -> Watched
        ensures { OverPromise self numbers.now result }
    {
        let mut watched = Watched {
            next: self,
            left: 0,
            middle: 0,
            right: 0,
        };
        for report in numbers.chunks_exact(5) {
            watched = watched.with(low_three(report[0]));
        }
        watched
    }
}
