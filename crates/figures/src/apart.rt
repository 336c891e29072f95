// Reports that are latched earlier than they are sent.
use crate::print;
use crate::steps::{Run, answers_to, on, on_slots, sends, started};
use ballbox::{BallBox, Event};
use std::io::Stdout;

fn set_to_u(output: Stdout) -> Run<BallBox> {
    on(output, started(BallBox::fresh()), Event::Host(b'U'))
}

// "A host byte may now break off a report of which no byte has gone, so a lone 256 can stand on the line": behind it a reader of U awaits a silence.
fn lone_break(output: Stdout) {
    print::say(output, b"Lone break");
    let r = on_slots(output, set_to_u(output), 1);
    let r = on(output, r, Event::Motion(5, 0));
    let r = on(output, r, Event::Latch);
    let r = on(output, r, Event::Host(b'O'));
    let r = on(output, r, Event::Motion(7, 0));
    let r = on_slots(output, r, 6);
    let r = on(output, r, Event::Motion(3, 0));
    let r = on_slots(output, r, 5);
    print::say(output, b"\nLone break");
    answers_to(output, b'U', r);
}

// "U's second pair is still latched when byte 4 is sent": it has the movement since the Latch.
fn late_pair(output: Stdout) {
    print::say(output, b"Late pair");
    let r = sends(output, set_to_u(output), 1);
    let r = on(output, r, Event::Motion(5, 0));
    let r = sends(output, r, 1);
    let r = on(output, r, Event::Latch);
    let r = on(output, r, Event::Motion(-120, 0));
    let r = on(output, r, Event::Latch);
    let r = sends(output, r, 3);
    let r = on(output, r, Event::Motion(-3, 0));
    let r = sends(output, r, 3);
    print::say(output, b"\nLate pair");
    answers_to(output, b'U', r);
}

pub(crate) fn runs(output: Stdout) {
    print::say(output, b"Latched earlier than sent\n");
    lone_break(output);
    late_pair(output);
}
