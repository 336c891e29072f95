// The good box, rule by rule.
ghost use Rattle.std.specs.Prelude.{◌≡◌, ◌+◌, ◌*◌, ◌<◌, ◌^◌};
ghost use Rattle.ballbox.specs.Numbers.{number_from};
ghost use Rattle.ballbox.specs.Good.{good_settings, on_pad, good_track, sent_below, length_known, second_held, rest_zero, good_going, dormant_rightly, states_small, unused_zero, good_memory, remembers_rightly, shows_rightly, marks};
ghost use Rattle.ballbox.specs.Promises.{GoodPromise};

use crate::commands::is_stream;
use crate::presses::PLACES;
use crate::{BallBox, Going, MODE_D, MOST_BUTTONS, Memory, Pair, Settings, Track};
use wire::FORMAT_U;

// A byte as a wide number.
fn wide(byte: u8) -> u64
    ensures value { result ≡ byte }
    ensures bounded { result < 256 }
{
    byte as u64
}

// The least number that takes more than n bytes.
fn above(n: u8) -> u64
    requires { n < 8 }
    ensures { result ≡ 256 ^ n }
{
    match n {
        0 => 1,
        1 => 256,
        2 => 65536,
        3 => 16777216,
        4 => 4294967296,
        5 => 1099511627776,
        6 => 281474976710656,
        _ => 72057594037927936,
    }
}

impl Settings {
    // Known letters, and buttons 0 to 7.
    fn good(self) -> bool
        ensures { result ≡ good_settings self }
    {
        wire::known(self.format)
            & (is_stream(self.mode) | (self.mode == MODE_D))
            & (self.buttons <= MOST_BUTTONS)
    }
}

impl Pair {
    fn on_pad(self) -> bool
        ensures { result ≡ on_pad self }
    {
        ((0 <= self.x) & (self.x <= 4095)) & ((0 <= self.y) & (self.y <= 4095))
    }
}

impl Track {
    // Positions 0 to 4095.
    fn good(self) -> bool
        ensures { result ≡ good_track self }
    {
        let position = self.position;
        let last = self.last;
        position.on_pad() & last.on_pad()
    }
}

impl Going {
    fn sent_below(self) -> bool
        ensures { result ≡ sent_below self }
    {
        (self.sent < self.length) | ((self.sent == 0) & (self.length == 0))
    }

    // As long as a report of the format, or a reply.
    fn length_known(self, letter: u8) -> bool
        ensures { result ≡ length_known letter self }
    {
        (self.length <= 3) | (self.length as usize == wire::size(letter))
    }

    // In U, bytes 4 and 5 are 0 until byte 4 is sent.
    fn second_held(self, letter: u8) -> bool
        ensures { result ≡ second_held letter self }
    {
        let bytes = self.bytes;
        !(letter == FORMAT_U) | (4 <= self.sent) | ((bytes[3] == 0) & (bytes[4] == 0))
    }

    // The bytes as one number, the first lowest.
    fn number(self) -> u64
        ensures { result ≡ number_from 5 0 self.bytes }
    {
        let b = self.bytes;
        wide(b[0])
            + 256 * wide(b[1])
            + 65536 * wide(b[2])
            + 16777216 * wide(b[3])
            + 4294967296 * wide(b[4])
    }

    fn rest_zero(self) -> bool
        ensures { result ≡ rest_zero self }
    {
        if 5 <= self.length {
            return true;
        }
        self.number() < above(self.length)
    }

    fn good(self, letter: u8) -> bool
        ensures { result ≡ good_going letter self }
    {
        if self.length == 0 {
            return (self.sent == 0) & self.rest_zero();
        }
        self.sent_below() & self.length_known(letter) & self.second_held(letter) & self.rest_zero()
    }
}

impl Memory {
    // The states as one number, the oldest lowest.
    fn number(self) -> u64
        ensures { result ≡ number_from 8 0 self.states }
    {
        let s = self.states;
        wide(s[0])
            + 256 * wide(s[1])
            + 65536 * wide(s[2])
            + 16777216 * wide(s[3])
            + 4294967296 * wide(s[4])
            + 1099511627776 * wide(s[5])
            + 281474976710656 * wide(s[6])
            + 72057594037927936 * wide(s[7])
    }

    fn states_small(self) -> bool
        ensures { result ≡ states_small self }
    {
        let s = self.states;
        (s[0] <= MOST_BUTTONS)
            & (s[1] <= MOST_BUTTONS)
            & (s[2] <= MOST_BUTTONS)
            & (s[3] <= MOST_BUTTONS)
            & (s[4] <= MOST_BUTTONS)
            & (s[5] <= MOST_BUTTONS)
            & (s[6] <= MOST_BUTTONS)
            & (s[7] <= MOST_BUTTONS)
    }

    fn unused_zero(self) -> bool
        ensures { result ≡ unused_zero self }
    {
        if 8 <= self.count {
            return true;
        }
        self.number() < above(self.count)
    }

    // At most eight, each 0 to 7, the unused places 0; whether the first is shown is 0 or 1.
    fn good(self) -> bool
        ensures { result ≡ good_memory self }
    {
        if self.count == 0 {
            return self.unused_zero() & (self.showing <= 1);
        }
        (self.count <= PLACES) & self.states_small() & self.unused_zero() & (self.showing <= 1)
    }

    // What is going shows the first only with one remembered, and as long as a report.
    fn shows_rightly(self, letter: u8, going: Going) -> bool
        ensures { result ≡ shows_rightly letter going self }
    {
        if self.showing != 1 {
            return true;
        }
        self.any() & (going.length as usize == wire::size(letter))
    }
}

impl BallBox {
    // Dormant only with nothing going or due.
    fn dormant_rightly(self) -> bool
        ensures { result ≡ dormant_rightly self }
    {
        (self.dormant != 1) | ((self.going.length == 0) & (self.due != 1))
    }

    // Remembers only awake and in a stream mode.
    fn remembers_rightly(self) -> bool
        ensures { result ≡ remembers_rightly self }
    {
        let memory = self.memory;
        if !memory.any() {
            return true;
        }
        (self.dormant != 1) & is_stream(self.settings.mode)
    }

    // Whether a report is due, and whether the box is dormant, are 0 or 1.
    fn marks(self) -> bool
        ensures { result ≡ marks self }
    {
        (self.due <= 1) & (self.dormant <= 1)
    }

    // Whether the box is good: a step of any other is refused with 6.
    pub fn good(self) -> bool
        ensures { GoodPromise self result }
    {
        let settings = self.settings;
        let track = self.track;
        let going = self.going;
        let memory = self.memory;
        if !settings.good() {
            return false;
        }
        if !track.good() {
            return false;
        }
        if !going.good(settings.format) {
            return false;
        }
        if !self.dormant_rightly() {
            return false;
        }
        if !memory.good() {
            return false;
        }
        if !self.remembers_rightly() {
            return false;
        }
        if !memory.shows_rightly(settings.format, going) {
            return false;
        }
        self.marks()
    }
}
