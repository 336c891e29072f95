// Which movements a format holds.
ghost use Rattle.std.specs.Prelude.{◌≡◌};
ghost use Rattle.wire.specs.Holds.{within, x_range, y_range, second_range, unheld};

use crate::{Format, Movement, Range, Report};

// A magnitude of seven bits under a sign.
const SIGNED_SEVEN: Range = Range {
    low: -127,
    high: 127,
};

// A two's complement byte, and one that is positive to the south.
const BYTE: Range = Range {
    low: -128,
    high: 127,
};

const SOUTHWARD: Range = Range {
    low: -127,
    high: 128,
};

// Twelve bits: a position, and two's complement.
const POSITION: Range = Range { low: 0, high: 4095 };

const TWELVE: Range = Range {
    low: -2048,
    high: 2047,
};

// No movement.
const NONE: Range = Range { low: 0, high: 0 };

impl Range {
    // Whether a movement lies in the range.
    #[inline(always)]
    fn has(self, v: i16) -> bool
        ensures { result ≡ within self v }
    {
        (self.low..=self.high).contains(&v)
    }
}

impl Format {
    #[inline(always)]
    fn x_range(self) -> Range
        ensures { result ≡ x_range self }
    {
        match self {
            Format::Mm => SIGNED_SEVEN,
            Format::Absolute => POSITION,
            Format::Relative => TWELVE,
            Format::Microsoft | Format::FiveByte | Format::ThreeByte | Format::Hexadecimal => BYTE,
        }
    }

    #[inline(always)]
    fn y_range(self) -> Range
        ensures { result ≡ y_range self }
    {
        match self {
            Format::Microsoft => SOUTHWARD,
            _ => self.x_range(),
        }
    }

    // The second pair is zero except in U.
    #[inline(always)]
    fn second_range(self) -> Range
        ensures { result ≡ second_range self }
    {
        match self {
            Format::FiveByte => BYTE,
            _ => NONE,
        }
    }
}

// The first movement, in the order x1, y1, x2, y2, that a format does not hold.
#[inline(always)]
pub(crate) fn unheld(f: Format, report: Report) -> Option<Movement>
    ensures { result ≡ unheld f report }
{
    if !f.x_range().has(report.x1) {
        Some(Movement::FirstX)
    } else if !f.y_range().has(report.y1) {
        Some(Movement::FirstY)
    } else if !f.second_range().has(report.x2) {
        Some(Movement::SecondX)
    } else if !f.second_range().has(report.y2) {
        Some(Movement::SecondY)
    } else {
        None
    }
}
