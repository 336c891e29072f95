// The excess beside what is held, and what the limits threw away, added up.
ghost use Rattle.std.specs.Prelude.{◌≡◌};
ghost use Rattle.numbers.specs.Signed.{held_long};
ghost use Rattle.ballbox.specs.Thrown.{both, sums, added};

use crate::{Bounded, BoundedPair, Excess, Pair, Sums};

// Two numbers held, and the excess of either.
pub(crate) fn both(x: Bounded, y: Bounded) -> BoundedPair
    ensures { result ≡ both x y }
{
    BoundedPair {
        value: Pair {
            x: x.value,
            y: y.value,
        },
        excess: Excess {
            x: x.excess,
            y: y.excess,
        },
    }
}

// The ends of 64 bits.
const LEAST: i64 = -9223372036854775808;

const MOST: i64 = 9223372036854775807;

// The sum of two, held at the ends of 64 bits.
fn held_long(a: i64, b: i64) -> i64
    ensures { result ≡ held_long a b }
{
    if b < 0 {
        if a < LEAST - b {
            return LEAST;
        }
        return a + b;
    }
    if MOST - b < a {
        return MOST;
    }
    a + b
}

impl Excess {
    // A sum, with an excess added.
    fn adding(self, excess: Excess) -> Excess
        ensures { result ≡ added self excess }
    {
        let x = held_long(self.x, excess.x);
        let y = held_long(self.y, excess.y);
        Excess { x, y }
    }
}

impl Sums {
    // An excess over the report's limit is added.
    pub(crate) fn over_limit(self, excess: Excess) -> Sums
        ensures { result ≡ sums (added self.limit excess) self.counter }
    {
        let limit = self.limit;
        let counter = self.counter;
        Sums {
            limit: limit.adding(excess),
            counter: counter,
        }
    }

    // An excess over the counter's 16 bits is added.
    pub(crate) fn over_counter(self, excess: Excess) -> Sums
        ensures { result ≡ sums self.limit (added self.counter excess) }
    {
        let limit = self.limit;
        let counter = self.counter;
        Sums {
            limit: limit,
            counter: counter.adding(excess),
        }
    }
}
