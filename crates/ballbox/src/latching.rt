// Latching: what a report takes of the box, and its bytes.
ghost use Rattle.std.specs.Prelude.{◌≡◌, true, ◌≤◌};
ghost use Rattle.wire.specs.Holds.{accepted_by};
ghost use Rattle.wire.specs.Table.{five, bytes_by};
ghost use Rattle.ballbox.specs.Presses.{to_show};
ghost use Rattle.ballbox.specs.Latching.{limits, limited, limit_excess, movement, taken, taken_over, cleared, latched, second_latched};

use crate::motion::held;
use crate::thrown::both;
use crate::{BallBox, Bounded, BoundedPair, Going, Pair, Track};
use wire::{FORMAT_A, FORMAT_B, FORMAT_U, Range, Report};

// What a report of the format may say; in A it is a position.
fn limits(letter: u8) -> Range
    ensures { result ≡ limits letter }
{
    match letter {
        FORMAT_A => Range { low: 0, high: 4095 },
        FORMAT_B => Range {
            low: -2048,
            high: 2047,
        },
        _ => Range {
            low: -127,
            high: 127,
        },
    }
}

// A movement held to the limits, and the excess.
fn limited(letter: u8, v: i16) -> Bounded
    ensures { result ≡ record { value = limited letter v; excess = limit_excess letter v } }
{
    let range = limits(letter);
    held(v as i32, range.low, range.high)
}

// The bytes of an accepted report, and zeros behind them.
fn encoded(letter: u8, report: Report) -> [u8; 5]
    requires { accepted_by letter report ≡ true }
    ensures { result ≡ five (bytes_by letter report) }
{
    let mut bytes = [0u8; 5];
    let _ = wire::encode(letter, report, &mut bytes);
    bytes
}

impl Track {
    // In A the position, otherwise the counters.
    fn movement(self, letter: u8) -> Pair
        ensures { result ≡ movement letter self }
    {
        if letter == FORMAT_A {
            self.position
        } else {
            self.counter
        }
    }

    // The counters cleared, and the last position set to the position.
    pub(crate) fn cleared(self) -> Track
        ensures { result ≡ cleared self }
    {
        let position = self.position;
        Track {
            counter: Pair { x: 0, y: 0 },
            position: position,
            last: position,
        }
    }

    fn taken(self, letter: u8) -> BoundedPair
        ensures { result ≡ record { value = taken letter self; excess = taken_over letter self } }
    {
        let movement = self.movement(letter);
        let x = limited(letter, movement.x);
        let y = limited(letter, movement.y);
        both(x, y)
    }
}

impl BallBox {
    // A report is latched with the buttons to show, due is cleared.
    pub(crate) fn latched(mut self) -> BallBox
        requires { to_show self ≤ 7 }
        ensures { result ≡ latched self }
    {
        let letter = self.settings.format;
        let track = self.track;
        let taken = track.taken(letter);
        let pair = taken.value;
        let report = Report {
            buttons: self.to_show(),
            x1: pair.x,
            y1: pair.y,
            x2: 0,
            y2: 0,
        };
        let going = Going {
            length: wire::size(letter) as u8,
            sent: 0,
            bytes: encoded(letter, report),
        };
        let memory = self.memory;
        let sums = self.sums;
        self.going = going;
        self.memory = memory.showing_first();
        self.sums = sums.over_limit(taken.excess);
        self.track = track.cleared();
        self.due = 0;
        self
    }

    // U's second pair is latched into bytes 4 and 5; due stays.
    pub(crate) fn second_latched(mut self) -> BallBox
        requires { self.settings.format ≡ 0x55 }
        ensures { result ≡ second_latched self }
    {
        let track = self.track;
        let taken = track.taken(self.settings.format);
        let pair = taken.value;
        let report = Report {
            buttons: 0,
            x1: 0,
            y1: 0,
            x2: pair.x,
            y2: pair.y,
        };
        let second = encoded(FORMAT_U, report);
        let sums = self.sums;
        let mut going = self.going;
        going.bytes[3] = second[3];
        going.bytes[4] = second[4];
        self.going = going;
        self.sums = sums.over_limit(taken.excess);
        self.track = track.cleared();
        self
    }
}
