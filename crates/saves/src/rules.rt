// A report's buttons beside the last ones.
ghost use Rattle.std.specs.Prelude.{◌≡◌, not, ◌&&◌};
ghost use Rattle.numbers.specs.Bits.{value, bit};
ghost use Rattle.saves.specs.Rules.{new_in, hears};

use crate::{Told, Watch};

// Whether the lowest button is down now and was not, 0 or 1.
fn new_lowest(now: u8, was: u8) -> u8
    ensures { result ≡ value (bit 0 now && not (bit 0 was)) }
{
    u8::from(now % 2 == 1 && was % 2 != 1)
}

// Those that are down now and were not.
fn new_in(now: u8, was: u8) -> u8
    ensures { result ≡ new_in now was }
{
    let left = new_lowest(now / 4, was / 4);
    let middle = new_lowest(now / 2, was / 2);
    let right = new_lowest(now, was);
    4 * left + 2 * middle + right
}

impl Watch {
    // The buttons of a report: what changed, unless they are the first.
    pub(crate) fn hears(self, now: u8) -> Told
        ensures { result ≡ hears self now }
    {
        let last = self.last;
        let next = Watch::knowing(now);
        if self.known == 0 {
            Told {
                next,
                down: 0,
                up: 0,
            }
        } else {
            Told {
                next,
                down: new_in(now, last),
                up: new_in(last, now),
            }
        }
    }
}
