// The driver, fed in pieces, with the text to a lent slice.
ghost use Rattle.std.specs.Prelude.{◌≡◌, true, ◌<◌, ◌≤◌, length};
ghost use Rattle.driver.specs.Feeding.{owed_by, at_line, Turned, taken_of, byte_of, slot_of, slot_tick, end_of, Due, Ticks, feed_in, lacking, good};
ghost use Rattle.driver.specs.Promises.{FreshPromise, FeedPromise, FinishPromise, driven_in, whole, written};

use crate::{Driven, Driver, MOST_LINES, Order, Record, Tick, Turn, driving, lines, recorded};
use ballbox::BallBox;
use text::Text;
use wire::Refusal;

// The most bytes of a good line.
const LONGEST: usize = 15;

// At the start of a line, behind n others.
fn at_line(n: u32, ended: bool, owed: u32, ball: BallBox) -> Driver
    ensures { result ≡ at_line n ended owed ball }
{
    Driver {
        line: n,
        ended,
        held: [0; 15],
        count: 0,
        owed,
        ball,
    }
}

// The slots that a line asks for.
fn owed(order: Order) -> u32
    ensures { result ≡ owed_by order }
{
    match order {
        Order::Slots(k) => k,
        Order::Bad | Order::Format(_) | Order::Single(_) => 0,
    }
}

// The answer of a driver that took and wrote so many bytes.
fn answer(refusal: Option<Refusal>, next: Driver, taken: usize, written: usize) -> Driven
    ensures { result ≡ record { refusal = refusal; next = next; taken = taken; written = written; ended = next.ended } }
{
    Driven {
        refusal,
        next,
        taken,
        written,
        ended: next.ended,
    }
}

impl Driver {
    // Before the first byte.
    pub fn fresh() -> Driver
        ensures { FreshPromise result }
    {
        at_line(0, false, 0, BallBox::fresh())
    }

    // A piece of the input, and its text to a lent slice. It stops before a byte, or a slot, whose text has no room.
    pub fn feed(self, input: &[u8], out: &mut [u8]) -> Driven
        ensures { FeedPromise self input.now out.old (driven_in result) out.new }
    {
        if !self.good() {
            return answer(Some(Refusal::BadState), self, 0, 0);
        }
        self.ticks(input, out)
    }

    // The end of the input. Where a part of its text has no room it can be called again.
    pub fn finish(self, out: &mut [u8]) -> Driven
        ensures { FinishPromise self out.old (driven_in result) out.new }
    {
        if !self.good() {
            return answer(Some(Refusal::BadState), self, 0, 0);
        }
        let closed = self.closed(out);
        let last = closed.next;
        let used = closed.written;
        if (last.owed != 0) | ((self.count != 0) & (closed.taken == 0)) {
            return answer(None, last, 0, used);
        }
        let t = last.end();
        let text = t.text;
        let n = text.len;
        if !text.put(out, used) {
            return answer(None, last, 0, used);
        }
        answer(None, t.next, 0, used + n)
    }

    // Whether it keeps its rules.
    fn good(self) -> bool
        ensures { result ≡ good self }
    {
        (self.line <= MOST_LINES)
            & (self.count <= LONGEST)
            & (self.owed <= MOST_LINES)
            & self.ball.good()
    }

    // A whole line: nothing is done after the end.
    fn taken(self, order: Order) -> Turn
        ensures { Turned result (taken_of self order) }
    {
        if self.ended {
            return Turn {
                next: at_line(self.line, true, self.owed, self.ball),
                text: Text::none(),
            };
        }
        match driving::line_done(self.line, self.ball, order) {
            Ok(done) => Turn {
                next: at_line(self.line + 1, false, owed(order), done.next),
                text: recorded::line(done.given),
            },
            Err(last) => Turn {
                next: at_line(self.line, true, 0, self.ball),
                text: recorded::line(Some(last)),
            },
        }
    }

    // One byte: a newline ends the line, and a sixteenth byte makes it bad.
    fn byte(self, b: u8) -> Turn
        requires { self.count ≤ 15 }
        ensures { Turned result (byte_of self b) × (b < slot_tick) }
    {
        let n = self.count;
        let mut held = self.held;
        if b == b'\n' {
            return self.taken(lines::said_by(&held[..n]));
        }
        if n >= LONGEST {
            return self.taken(Order::Bad);
        }
        held[n] = b;
        Turn {
            next: Driver {
                held,
                count: n + 1,
                ..self
            },
            text: Text::none(),
        }
    }

    // A slot that is owed.
    fn slot(self) -> Turn
        requires { 1 ≤ self.owed }
        ensures { Turned result (slot_of self) }
    {
        let step = driving::slot(self.ball);
        Turn {
            next: Driver {
                owed: self.owed - 1,
                ball: step.next,
                ..self
            },
            text: recorded::line(driving::given(step.sent, step.word)),
        }
    }

    // The end of the input: a missing first line is a bad one.
    fn end(self) -> Turn
        ensures { Turned result (end_of self) }
    {
        let last = at_line(self.line, true, self.owed, self.ball);
        if !self.ended & (self.line == 0) {
            return Turn {
                next: last,
                text: recorded::line(Some(Record::Bad(1))),
            };
        }
        Turn {
            next: last,
            text: Text::none(),
        }
    }

    // What is next, of a piece of which something is to come: a slot that is owed, or else its first byte.
    fn tick(self, input: &[u8]) -> Tick
        requires { Due self input.now }
        ensures { Ticks self input.now result }
    {
        if self.owed != 0 {
            return Tick {
                taken: 0,
                turn: self.slot(),
            };
        }
        Tick {
            taken: 1,
            turn: self.byte(input[0]),
        }
    }

    // The bytes of a piece, one after the other, and before each and behind the last the slots that are owed. A slot takes no byte, so the loop is no `for`
    // over them.
    fn ticks(self, input: &[u8], out: &mut [u8]) -> Driven
        requires { good self ≡ true }
        ensures { whole (driven_in result) out.new ≡ written (feed_in self input.now (length out.old)) out.old }
    {
        let mut m = self;
        let mut at: usize = 0;
        let mut used: usize = 0;
        while (at < input.len()) | (m.owed != 0) {
            let tick = m.tick(&input[at..]);
            let t = tick.turn;
            let text = t.text;
            let n = text.len;
            if !text.put(out, used) {
                return answer(None, m, at, used);
            }
            m = t.next;
            at += tick.taken;
            used += n;
        }
        answer(None, m, at, used)
    }

    // The newline that an unfinished line lacks, with all that is owed before and behind it.
    fn closed(self, out: &mut [u8]) -> Driven
        requires { good self ≡ true }
        ensures { whole (driven_in result) out.new ≡ written (feed_in self (lacking self) (length out.old)) out.old }
    {
        if self.count == 0 {
            return self.ticks(b"", out);
        }
        self.ticks(b"\n", out)
    }
}
