// Button states that come while a report goes: each is shown by a report of its own.
use crate::print;
use crate::steps::{Run, answers_to, on, on_slots, started};
use ballbox::{BallBox, Event};
use std::io::Stdout;

// A fresh box that is set to a format: it is in the stream mode O.
fn set_to(output: Stdout, letter: u8) -> Run<BallBox> {
    on(output, started(BallBox::fresh()), Event::Host(letter))
}

fn tap_in(output: Stdout, letter: u8) {
    print::say(output, b"Tap in ");
    print::say(output, &[letter]);
}

// "A save tapped in a long move .. fell inside one report": M is pressed and released between its bytes.
// So many bytes are left of it then; behind it come two reports and a silence, in so many slots.
fn tap(output: Stdout, letter: u8, left: u8, behind: u8) {
    tap_in(output, letter);
    let r = on_slots(output, set_to(output, letter), 1);
    let r = on(output, r, Event::Motion(5, 0));
    let r = on_slots(output, r, 1);
    let r = on(output, r, Event::Buttons(2));
    let r = on_slots(output, r, 1);
    let r = on(output, r, Event::Buttons(0));
    let r = on_slots(output, r, left);
    let r = on(output, r, Event::Motion(7, 0));
    let r = on_slots(output, r, behind);
    print::say(output, b"\n");
    tap_in(output, letter);
    answers_to(output, letter, r);
}

// Button states 1 to 7, and two more.
fn nine(output: Stdout, run: Run<BallBox>) -> Run<BallBox> {
    let r = on(output, run, Event::Buttons(1));
    let r = on(output, r, Event::Buttons(2));
    let r = on(output, r, Event::Buttons(3));
    let r = on(output, r, Event::Buttons(4));
    let r = on(output, r, Event::Buttons(5));
    let r = on(output, r, Event::Buttons(6));
    let r = on(output, r, Event::Buttons(7));
    let r = on(output, r, Event::Buttons(6));
    on(output, r, Event::Buttons(5))
}

// "A ninth change replaces the newest": the eighth, 6, has no report.
fn nine_changes(output: Stdout) {
    print::say(output, b"Nine changes");
    let r = on(output, set_to(output, b'S'), Event::Motion(5, 0));
    let r = on_slots(output, r, 1);
    let r = nine(output, r);
    let r = on_slots(output, r, 27);
    print::say(output, b"\nNine changes");
    answers_to(output, b'S', r);
}

// "A broken-off report is followed by another with the same buttons", behind the reply.
fn broken_by_f(output: Stdout) {
    print::say(output, b"Broken by f");
    let r = on(output, set_to(output, b'S'), Event::Buttons(2));
    let r = on_slots(output, r, 1);
    let r = on(output, r, Event::Host(b'f'));
    let r = on_slots(output, r, 5);
    print::say(output, b"\nBroken by f");
    answers_to(output, b'S', r);
}

// "D, P, `d` and the format commands empty the memory": P's report shows the present buttons.
fn emptied_by_p(output: Stdout) {
    print::say(output, b"Emptied by P");
    let r = on(output, set_to(output, b'S'), Event::Buttons(2));
    let r = on_slots(output, r, 1);
    let r = on(output, r, Event::Buttons(0));
    let r = on(output, r, Event::Host(b'P'));
    let r = on_slots(output, r, 4);
    print::say(output, b"\nEmptied by P");
    answers_to(output, b'S', r);
}

pub(crate) fn runs(output: Stdout) {
    print::say(output, b"Presses on a busy line\n");
    tap(output, b'S', 1, 7);
    tap(output, b'U', 3, 11);
    nine_changes(output);
    broken_by_f(output);
    emptied_by_p(output);
}
