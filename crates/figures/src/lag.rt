// Why a cursor lags: what the limits threw away of a fast move, added up.
use crate::print;
use crate::steps::{after, slots};
use ballbox::{BallBox, Event, Excess};
use std::io::Stdout;

fn axes(output: Stdout, e: Excess) {
    print::long(output, e.x);
    print::say(output, b" ");
    print::long(output, e.y);
}

// The sums, readable after any step.
fn shown(output: Stdout, b: BallBox) {
    print::say(output, b", over the limit ");
    axes(output, b.sums.limit);
    print::say(output, b", over the counter ");
    axes(output, b.sums.counter);
    print::say(output, b"\n");
}

fn set_to(output: Stdout, letter: u8) -> BallBox {
    print::say(output, b"Lag");
    after(output, BallBox::fresh(), Event::Host(letter))
}

// In T a report says 127 at most: of 200 and -3000 the rest is lost.
fn in_t(output: Stdout) {
    let b = after(output, set_to(output, b'T'), Event::Motion(200, -3000));
    shown(output, slots(output, b, 3));
}

// In B it says 2047 and -2048; before that the counters were held at both ends.
fn in_b(output: Stdout) {
    let b = after(output, set_to(output, b'B'), Event::Motion(32767, -32768));
    let b = after(output, b, Event::Motion(10, -20));
    shown(output, slots(output, b, 5));
}

// In U the second pair is limited like the first, and an excess has its sign.
fn in_u(output: Stdout) {
    let b = after(output, set_to(output, b'U'), Event::Motion(130, 0));
    let b = slots(output, b, 3);
    let b = after(output, b, Event::Motion(-200, 0));
    shown(output, slots(output, b, 2));
}

pub(crate) fn runs(output: Stdout) {
    print::say(output, b"What the limit threw away\n");
    in_t(output);
    in_b(output);
    in_u(output);
}
