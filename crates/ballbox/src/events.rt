// The six events, awake and dormant.
ghost use Rattle.std.specs.Prelude.{◌≡◌, [], ◌∷◌, ◌≤◌, ◌<◌};
ghost use Rattle.ballbox.specs.Events.{gives, quietly, moved, on_motion, on_buttons, on_period, bytes_left, wanted, latching, with_byte_ready, more_behind, after, memory_after, next_byte, sending, dropped, on_host, woken};
ghost use Rattle.ballbox.specs.Presses.{to_show};
ghost use Rattle.ballbox.specs.Promises.{stepped};

use crate::commands::{heard, is_stream, is_timed};
use crate::{ACK, BallBox, Going, MODE_O, Memory, Stepped, Track, nothing};
use wire::{BREAK, FORMAT_U, SILENCE, SUCCESS};

impl Going {
    fn more_behind(self) -> bool
        requires { self.sent < 5 }
        ensures { result ≡ more_behind self }
    {
        self.sent + 1 < self.length
    }

    // When the next byte has gone; after the last, nothing is going.
    fn after(mut self) -> Going
        requires { self.sent < 5 }
        ensures { result ≡ after self }
    {
        if self.more_behind() {
            self.sent = self.sent + 1;
            self
        } else {
            nothing()
        }
    }
}

impl Memory {
    // When the next byte of what is going has gone.
    fn after(self, going: Going) -> Memory
        requires { going.sent < 5 }
        ensures { result ≡ memory_after going self }
    {
        if going.more_behind() {
            self
        } else {
            self.shown()
        }
    }
}

impl BallBox {
    // The box, with no word or with one.
    pub(crate) fn quietly(self) -> Stepped
        ensures { result ≡ stepped (quietly self) }
    {
        Stepped {
            refusal: SUCCESS,
            sent: 0,
            word: 0,
            rest: 0,
            next: self,
        }
    }

    fn gives(self, word: u16) -> Stepped
        ensures { result ≡ stepped (gives (word ∷ []) self) }
    {
        Stepped {
            refusal: SUCCESS,
            sent: 1,
            word: word,
            rest: 0,
            next: self,
        }
    }

    fn moved(self) -> bool
        ensures { result ≡ moved self }
    {
        let track = self.track;
        track.has_moved(self.settings.format)
    }

    // Each counter takes the sum, and so does the position; the counters' excess is added up.
    pub(crate) fn on_motion(mut self, dx: i16, dy: i16) -> BallBox
        ensures { result ≡ on_motion dx dy self }
    {
        let track = self.track;
        let counter = track.counter;
        let position = track.position;
        let last = track.last;
        let counted = counter.counted(dx, dy);
        let held = counted.value;
        let moved = Track {
            counter: held,
            position: position.placed(dx, dy),
            last: last,
        };
        let sums = self.sums;
        self.track = moved;
        self.sums = sums.over_counter(counted.excess);
        self
    }

    // A change is kept, and in a stream mode remembered.
    pub(crate) fn on_buttons(mut self, n: u8) -> BallBox
        ensures { result ≡ on_buttons n self }
    {
        if n == self.settings.buttons {
            return self;
        }
        let memory = self.memory;
        self.settings.buttons = n;
        if is_stream(self.settings.mode) {
            self.memory = memory.remembering(n);
        }
        self
    }

    // In the timed modes, if moved, a report is due.
    pub(crate) fn on_period(mut self) -> BallBox
        ensures { result ≡ on_period self }
    {
        let moved = self.moved();
        let due = (self.due == 1) | (is_timed(self.settings.mode) & moved);
        self.due = due as u8;
        self
    }

    fn bytes_left(self) -> bool
        ensures { result ≡ bytes_left self }
    {
        self.going.sent < self.going.length
    }

    // A report is due, or a state is remembered, or the mode is O and the box has moved.
    fn wanted(self) -> bool
        ensures { result ≡ wanted self }
    {
        let memory = self.memory;
        let moved = self.moved();
        (self.due == 1) | memory.any() | ((self.settings.mode == MODE_O) & moved)
    }

    // Where no bytes are left and a report is wanted, one is latched.
    pub(crate) fn latching(self) -> BallBox
        requires { to_show self ≤ 7 }
        ensures { result ≡ latching self }
    {
        if !self.bytes_left() & self.wanted() {
            self.latched()
        } else {
            self
        }
    }

    // In U, the second pair is latched when byte 4 is sent.
    fn with_byte_ready(self) -> BallBox
        ensures { result ≡ with_byte_ready self }
    {
        if (self.settings.format == FORMAT_U) & (self.going.sent == 3) {
            self.second_latched()
        } else {
            self
        }
    }

    fn next_byte(mut self) -> Stepped
        requires { self.going.sent < 5 }
        ensures { result ≡ stepped (next_byte self) }
    {
        let going = self.going;
        let at = going.sent as usize;
        let byte = going.bytes[at] as u16;
        let memory = self.memory;
        self.memory = memory.after(going);
        self.going = going.after();
        self.gives(byte)
    }

    // If bytes are left the next goes out, otherwise a silence.
    pub(crate) fn sending(self) -> Stepped
        requires { self.going.length ≤ 5 }
        ensures { result ≡ stepped (sending self) }
    {
        if self.bytes_left() {
            self.with_byte_ready().next_byte()
        } else {
            self.gives(SILENCE)
        }
    }

    // Bytes that are left are dropped.
    fn dropped(mut self) -> BallBox
        ensures { result ≡ dropped self }
    {
        let memory = self.memory;
        if self.bytes_left() {
            self.memory = memory.hidden();
            self.going = nothing();
        }
        self
    }

    // Bytes that are left are broken off; then the byte is obeyed.
    pub(crate) fn on_host(self, byte: u8) -> Stepped
        ensures { result ≡ stepped (on_host byte self) }
    {
        let clear = self.dropped();
        let next = clear.obeyed(heard(byte));
        if !self.bytes_left() {
            return next.quietly();
        }
        next.gives(BREAK)
    }

    // The box wakes, and an ACK is to be sent.
    pub(crate) fn woken(mut self) -> BallBox
        ensures { result ≡ woken self }
    {
        self.dormant = 0;
        self.replying(1, ACK, 0)
    }
}
