// What is remembered of the reports so far, and how a report moves by it.
ghost use Rattle.std.specs.Prelude.{◌≡◌, pos};
ghost use Rattle.bridge.specs.Remembered.{none, most_set, good_base, summed, since_base, movement, counted_by, noted};

use crate::{Base, Move, Past};
use wire::{FORMAT_A, Report};

// Both pairs of a report, summed.
fn summed(report: Report) -> Move
    ensures { result ≡ summed report }
{
    Move {
        x: i32::from(report.x1) + i32::from(report.x2),
        y: i32::from(report.y1) + i32::from(report.y2),
    }
}

impl Base {
    // The highest number of a base, and of none.
    fn most(self) -> i16
        ensures { result ≡ pos (most_set self.set) }
    {
        if self.set { 4095 } else { 0 }
    }

    // Whether it keeps its rules: one only in A, with numbers from 0 to 4095, and else zeros.
    pub(crate) fn good(self, letter: u8) -> bool
        ensures { result ≡ good_base letter self }
    {
        let most = self.most();
        let east = (0 <= self.x) & (self.x <= most);
        let north = (0 <= self.y) & (self.y <= most);
        (!self.set | (letter == FORMAT_A)) & east & north
    }

    // How far a report of A lies from the base; where there is none it moves nothing.
    fn since(self, report: Report) -> Move
        ensures { result ≡ since_base self report }
    {
        if !self.set {
            return Move { x: 0, y: 0 };
        }
        Move {
            x: i32::from(report.x1) - i32::from(self.x),
            y: i32::from(report.y1) - i32::from(self.y),
        }
    }
}

impl Past {
    // Before the first report.
    pub(crate) fn none() -> Past
        ensures { result ≡ none }
    {
        Past {
            base: Base {
                set: false,
                x: 0,
                y: 0,
            },
            middle: false,
            presses: 0,
        }
    }

    // The movement of a report.
    pub(crate) fn moved(self, letter: u8, report: Report) -> Move
        ensures { result ≡ movement letter self report }
    {
        if letter == FORMAT_A {
            return self.base.since(report);
        }
        summed(report)
    }

    // The presses, with that of a report whose middle is down or not.
    fn counted(self, down: bool) -> u16
        ensures { result ≡ counted_by self down }
    {
        if down & !self.middle {
            return self.presses.saturating_add(1);
        }
        self.presses
    }

    // What is remembered behind a report.
    pub(crate) fn noted(self, letter: u8, report: Report) -> Past
        ensures { result ≡ noted letter self report }
    {
        let down = report.buttons / 2 % 2 == 1;
        let presses = self.counted(down);
        let mut base = self.base;
        if letter == FORMAT_A {
            base = Base {
                set: true,
                x: report.x1,
                y: report.y1,
            };
        }
        Past {
            base,
            middle: down,
            presses,
        }
    }
}
