// The figures of the paper that are run.
use crate::print;
use crate::steps::{after, answers, slots};
use ballbox::{BallBox, Event};
use std::io::Stdout;

// "T, Motion(200, 0), Period, Slot: x 127, counter 0", with Latch and Send for Slot: what follows sends x and y, and then silence.
fn held_movement(output: Stdout) {
    print::say(output, b"T");
    let b = after(output, BallBox::fresh(), Event::Host(b'T'));
    let b = after(output, b, Event::Motion(200, 0));
    let b = after(output, b, Event::Period);
    let b = slots(output, b, 1);
    print::say(output, b", x ");
    print::small(output, b.going.bytes[1]);
    print::say(output, b", counters ");
    print::signed(output, b.track.counter.x);
    print::say(output, b" ");
    print::signed(output, b.track.counter.y);
    slots(output, b, 3);
    print::say(output, b"\n");
}

// "S, 94 05 98 00 00: two dropped, one zero report."
fn second_mark(output: Stdout) {
    print::say(output, b"S");
    let words = [0x94u16, 0x05, 0x98, 0x00, 0x00];
    answers(output, b'S', &words);
}

// "108 and 236 are the same first byte": a report of V, and the same with bit 7 set in each byte, as no box sends it.
fn eighth_bit(output: Stdout) {
    print::say(output, b"V");
    let words = [0x6Cu16, 0x05, 0x3D];
    answers(output, b'V', &words);
    print::say(output, b"V");
    let turned = [0xECu16, 0x85, 0xBD];
    answers(output, b'V', &turned);
}

// "S, 94 sent, Host R: 256": the movement is lost, and "a broken-off report is followed by another with the same buttons".
fn broken_off(output: Stdout) {
    print::say(output, b"S");
    let b = after(output, BallBox::fresh(), Event::Host(b'S'));
    let b = after(output, b, Event::Buttons(4));
    let b = after(output, b, Event::Motion(5, -3));
    let b = slots(output, b, 1);
    let b = after(output, b, Event::Host(b'R'));
    slots(output, b, 4);
    print::say(output, b"\n");
}

pub(crate) fn figures(output: Stdout) {
    print::say(output, b"Figures of the paper\n");
    held_movement(output);
    second_mark(output);
    eighth_bit(output);
    broken_off(output);
}
