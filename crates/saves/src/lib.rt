// What a host makes of the buttons of the reports that it is handed: which went down, and which went up.
#![tactic(auto)]

ghost use Rattle.saves.specs.Promises.{FreshPromise, KnowingPromise, HeardPromise, OverPromise};

use wire::Report;

mod line;
mod rules;

// What the host knows: `known` is 0 where it has seen no buttons yet; `last` are those that it saw last, 4L+2M+R, and
// higher bits of it are not looked at. C has this struct, so that `known` is a number and `last` stands beside it.
#[repr(C)]
#[derive(Clone, Copy, Drop)]
pub struct Watch {
    pub known: u8,
    pub last: u8,
}

// What a report tells: which buttons went down and which went up since the one before it, 4L+2M+R, and the watch for
// the next.
#[repr(C)]
#[derive(Clone, Copy, Drop)]
pub struct Told {
    pub next: Watch,
    pub down: u8,
    pub up: u8,
}

// What many reports tell: how often each button went down, and the watch for the next.
#[repr(C)]
#[derive(Clone, Copy, Drop)]
pub struct Watched {
    pub next: Watch,
    pub left: usize,
    pub middle: usize,
    pub right: usize,
}

impl Watch {
    // A watch that has seen nothing: the first report teaches it the buttons and tells nothing, so that a button which
    // is held when the recorder is switched on is no press.
    pub fn fresh() -> Watch
        ensures { FreshPromise result }
    {
        Watch { known: 0, last: 0 }
    }

    // A watch that was told the buttons, as by the reply to 05H in prompt mode: the first report tells what changed since.
    pub fn knowing(buttons: u8) -> Watch
        ensures { KnowingPromise buttons result }
    {
        Watch {
            known: 1,
            last: buttons,
        }
    }

    // A report. Bytes that a reader dropped change nothing: a report is laid beside the last one that was seen.
    pub fn heard(self, report: Report) -> Told
        ensures { HeardPromise self report result }
    {
        self.hears(report.buttons)
    }

    // The numbers that a long read wrote, five a report. What is left behind the last whole five is not looked at.
    pub fn over(self, numbers: &[i16]) -> Watched
        ensures { OverPromise self numbers.now result }
    {
        self.line(numbers)
    }
}
