// The rules of a good reader.
ghost use Rattle.std.specs.Prelude.{◌≡◌, cond, ltb, eqb};
ghost use Rattle.vsxxx.specs.Reports.{size_from, fits_start, fits_behind};
ghost use Rattle.vsxxx.specs.SelfTests.{is_test};
ghost use Rattle.puckreader.specs.Promises.{GoodPromise};

use crate::PuckReader;
use wire::FORMAT_S;

// Whether a byte begins a self-test.
pub(crate) fn is_test(byte: u8) -> bool
    ensures { result ≡ is_test byte }
{
    byte / 16 == 10
}

// How many bytes a report has that begins with this one.
pub(crate) fn size_from(first: u8) -> u8
    ensures { result ≡ size_from first }
{
    if is_test(first) {
        return 4;
    }
    3
}

// Whether a byte may begin a report.
pub(crate) fn fits_start(byte: u8) -> bool
    ensures { result ≡ fits_start byte }
{
    wire::fits(FORMAT_S, 0, byte) | is_test(byte)
}

// Whether a byte may stand at a later place behind a first byte.
pub(crate) fn fits_behind(first: u8, place: u8, byte: u8) -> bool
    ensures { result ≡ fits_behind first place byte }
{
    if is_test(first) & (place == 3) {
        return byte < 8;
    }
    wire::fits(FORMAT_S, 1, byte)
}

// Whether a place behind the first holds what it may: a byte that is valid there, or 0 where none is kept.
fn holds(first: u8, count: u8, place: u8, byte: u8) -> bool
    ensures { result ≡ cond (ltb place count) (fits_behind first place byte) (eqb byte 0) }
{
    if place < count {
        return fits_behind(first, place, byte);
    }
    byte == 0
}

// And the first.
fn holds_first(count: u8, byte: u8) -> bool
    ensures { result ≡ cond (ltb 0 count) (fits_start byte) (eqb byte 0) }
{
    if 0 < count {
        return fits_start(byte);
    }
    byte == 0
}

impl PuckReader {
    // Whether the reader is good: a step and a long read of any other is refused with 6.
    pub fn good(self) -> bool
        ensures { GoodPromise self result }
    {
        let kept = self.kept;
        let count = self.count;
        (count <= 3)
            & ((count == 0) | (count < size_from(kept[0])))
            & holds_first(count, kept[0])
            & holds(kept[0], count, 1, kept[1])
            & holds(kept[0], count, 2, kept[2])
    }
}
