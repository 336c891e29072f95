// Button states that reports have yet to show.
ghost use Rattle.std.specs.Prelude.{◌≡◌, ◌-◌};
ghost use Rattle.ballbox.specs.Presses.{any_remembered, none, remembering, to_show, showing_first, shown, hidden};

use crate::{BallBox, Memory};

// How many are remembered at most.
pub(crate) const PLACES: u8 = 8;

pub(crate) fn none() -> Memory
    ensures { result ≡ none }
{
    Memory {
        states: [0u8; 8],
        count: 0,
        showing: 0,
    }
}

// One less, if there is one.
fn less(count: u8) -> u8
    ensures { result ≡ count - 1 }
{
    if count == 0 {
        return 0;
    }
    count - 1
}

impl Memory {
    pub(crate) fn any(self) -> bool
        ensures { result ≡ any_remembered self }
    {
        0 < self.count
    }

    // A change is remembered behind the newest, or in its place where eight are remembered.
    pub(crate) fn remembering(mut self, n: u8) -> Memory
        ensures { result ≡ remembering n self }
    {
        if self.count < PLACES {
            let at = self.count as usize;
            self.states[at] = n;
            self.count = self.count + 1;
        } else {
            self.states[7] = n;
        }
        self
    }

    // A report is latched: it shows the first, if one is remembered.
    pub(crate) fn showing_first(mut self) -> Memory
        ensures { result ≡ showing_first self }
    {
        let any = self.any();
        self.showing = any as u8;
        self
    }

    // The last byte has gone: what the report showed is removed.
    pub(crate) fn shown(self) -> Memory
        ensures { result ≡ shown self }
    {
        if self.showing != 1 {
            return self;
        }
        let s = self.states;
        Memory {
            states: [s[1], s[2], s[3], s[4], s[5], s[6], s[7], 0],
            count: less(self.count),
            showing: 0,
        }
    }

    // The report is broken off: what it showed stays.
    pub(crate) fn hidden(mut self) -> Memory
        ensures { result ≡ hidden self }
    {
        self.showing = 0;
        self
    }
}

impl BallBox {
    // The buttons that the next report shows: the first remembered, or the present ones.
    pub(crate) fn to_show(self) -> u8
        ensures { result ≡ to_show self }
    {
        let memory = self.memory;
        if memory.any() {
            return memory.states[0];
        }
        self.settings.buttons
    }
}
