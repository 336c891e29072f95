// Motion: held sums, the track, and whether the box has moved.
ghost use Rattle.std.specs.Prelude.{◌≡◌, ◌+ℤ◌, ◌-ℤ◌};
ghost use Rattle.numbers.specs.Signed.{held_sum, sum_excess};
ghost use Rattle.ballbox.specs.Thrown.{bounded};
ghost use Rattle.ballbox.specs.Motion.{placed_at, counted, counted_over, placed, apart, has_moved};

use crate::thrown::both;
use crate::{Bounded, BoundedPair, Pair, Track};
use wire::FORMAT_A;

// How far x lies from an end.
fn beyond(x: i32, end: i16) -> i64
    ensures { result ≡ x -ℤ end }
{
    (x as i64) - (end as i64)
}

// x held at lo and hi, and the excess.
pub(crate) fn held(x: i32, lo: i16, hi: i16) -> Bounded
    ensures { result ≡ bounded lo hi x }
{
    let low = lo as i32;
    let high = hi as i32;
    if x < low {
        return Bounded {
            value: lo,
            excess: beyond(x, lo),
        };
    }
    if high < x {
        return Bounded {
            value: hi,
            excess: beyond(x, hi),
        };
    }
    Bounded {
        value: x as i16,
        excess: 0,
    }
}

// The sum of two, which 32 bits hold.
fn total(a: i16, b: i16) -> i32
    ensures { result ≡ a +ℤ b }
{
    (a as i32) + (b as i32)
}

// The sum of two, held at the ends of 16 bits, and the excess.
fn held_sum(a: i16, b: i16) -> Bounded
    ensures { result ≡ record { value = held_sum a b; excess = sum_excess a b } }
{
    held(total(a, b), -32768, 32767)
}

// The sum of two, held in 0 to 4095.
fn placed_at(a: i16, b: i16) -> i16
    ensures { result ≡ placed_at a b }
{
    let place = held(total(a, b), 0, 4095);
    place.value
}

impl Pair {
    // The counters' sums, and what 16 bits do not hold of them.
    pub(crate) fn counted(self, dx: i16, dy: i16) -> BoundedPair
        ensures { result ≡ record { value = counted self dx dy; excess = counted_over self dx dy } }
    {
        let x = held_sum(self.x, dx);
        let y = held_sum(self.y, dy);
        both(x, y)
    }

    pub(crate) fn placed(self, dx: i16, dy: i16) -> Pair
        ensures { result ≡ placed self dx dy }
    {
        let x = placed_at(self.x, dx);
        let y = placed_at(self.y, dy);
        Pair { x, y }
    }

    // Whether two pairs differ.
    fn apart(self, other: Pair) -> bool
        ensures { result ≡ apart self other }
    {
        ((self.x < other.x) | (other.x < self.x)) | ((self.y < other.y) | (other.y < self.y))
    }
}

impl Track {
    // In A the position differs from the last; else a counter is not 0.
    pub(crate) fn has_moved(self, letter: u8) -> bool
        ensures { result ≡ has_moved letter self }
    {
        let counter = self.counter;
        let position = self.position;
        if letter == FORMAT_A {
            position.apart(self.last)
        } else {
            counter.apart(Pair { x: 0, y: 0 })
        }
    }
}
