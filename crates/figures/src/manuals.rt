// The worked examples of the manuals, by source document and section, as the paper keeps them.
use crate::print;
use crate::reports::show;
use crate::steps::{after, answers, slots};
use ballbox::{BallBox, Event};
use std::io::Stdout;
use wire::Report;

// 000 section 9: "will respond with an ASCII ACK (06H) whenever it receives an ASCII space (20H)".
fn space(output: Stdout) {
    print::say(output, b"000 section 9");
    let b = after(output, BallBox::fresh(), Event::Host(b' '));
    slots(output, b, 1);
    print::say(output, b"\n");
}

// 000 section 12.5: bytes 4 and 5 are "the movement of the mouse during transmission of the first report".
// 004 section 24: both pairs are "the same register which is sent and cleared twice in the five byte packet".
fn second_pair(output: Stdout) {
    print::say(output, b"000 section 12.5, 004 section 24");
    let b = after(output, BallBox::fresh(), Event::Motion(5, -3));
    let b = slots(output, b, 3);
    let b = after(output, b, Event::Motion(-123, 0));
    slots(output, b, 3);
    print::say(output, b"\n000 section 12.5, 004 section 24");
    let words = [257u16, 0x87, 0x05, 0xFD, 0x85, 0x00];
    answers(output, b'U', &words);
}

// 000 section 12.7: "The Report 63E52 means" left and middle depressed, -29 and +37.
fn hexadecimal(output: Stdout) {
    print::say(output, b"000 section 12.7");
    let words = [257u16, 0x36, 0x33, 0x45, 0x35, 0x32];
    answers(output, b'W', &words);
    print::say(output, b"000 section 12.7, ");
    let report = Report {
        buttons: 6,
        x1: -29,
        y1: 37,
        x2: 0,
        y2: 0,
    };
    show(output, b'W', report);
    print::say(output, b"000 section 12.7");
    let b = after(output, BallBox::fresh(), Event::Host(b'W'));
    let b = after(output, b, Event::Buttons(6));
    let b = after(output, b, Event::Motion(-29, 37));
    slots(output, b, 5);
    print::say(output, b"\n");
}

// 000 section 14.2: P prompts for a report, and "also puts the mouse in Prompt Mode".
fn prompt(output: Stdout) {
    print::say(output, b"000 section 14.2");
    let b = after(output, BallBox::fresh(), Event::Host(b'P'));
    let b = slots(output, b, 6);
    let b = after(output, b, Event::Host(b't'));
    slots(output, b, 2);
    print::say(output, b"\n");
}

// 000 section 14.3: "Every format command clears the mouse movement increment counters."
fn cleared_counters(output: Stdout) {
    print::say(output, b"000 section 14.3");
    let b = after(output, BallBox::fresh(), Event::Motion(5, -3));
    let b = after(output, b, Event::Host(b'U'));
    slots(output, b, 1);
    print::say(output, b"\n");
}

// 000 section 14.5.2: key data, and two bytes that the manual leaves undefined and the paper has 0.
fn diagnostic(output: Stdout) {
    print::say(output, b"000 section 14.5.2");
    let b = after(output, BallBox::fresh(), Event::Host(b'D'));
    let b = after(output, b, Event::Buttons(5));
    let b = after(output, b, Event::Host(5));
    slots(output, b, 4);
    print::say(output, b"\n");
}

// The box is told a letter, and asked for a reply of so many bytes.
fn reply(output: Stdout, b: BallBox, letter: u8, question: u8, bytes: u8) -> BallBox {
    let set = after(output, b, Event::Host(letter));
    let asked = after(output, set, Event::Host(question));
    slots(output, asked, bytes)
}

fn replies(output: Stdout, letters: &[u8], question: u8, bytes: u8) {
    let mut b = BallBox::fresh();
    for letter in letters {
        b = reply(output, b, *letter, question, bytes);
    }
    print::say(output, b"\n");
}

// 000 section 14.6: the format's code, under revision 3.0, in the table's order.
// 000 section 14.7: the format's and the mode's letter, in the tables' order; M is 4DH, as the paper decides.
fn letters(output: Stdout) {
    print::say(output, b"000 section 14.6");
    replies(output, b"UTWBSAV", b'f', 1);
    print::say(output, b"000 section 14.7");
    replies(output, b"ABSTUVW", b't', 2);
    print::say(output, b"000 section 14.7");
    replies(output, b"JKLRMQNOD", b't', 2);
}

// 000 section 14.7: "The two character string can be used directly to reprogram the mouse."
fn reprogrammed(output: Stdout) {
    print::say(output, b"000 section 14.7");
    let b = after(output, BallBox::fresh(), Event::Host(0x42));
    let b = after(output, b, Event::Host(0x4B));
    let b = after(output, b, Event::Host(b't'));
    slots(output, b, 2);
    print::say(output, b"\n");
}

// 000 section 14.9.2: d; no movement is tracked; "any character" wakes, is "not interpreted", and ACK (06H) comes back.
fn dormant(output: Stdout) {
    print::say(output, b"000 section 14.9.2");
    let b = after(output, BallBox::fresh(), Event::Host(b'd'));
    let b = after(output, b, Event::Motion(5, -3));
    let b = slots(output, b, 1);
    let b = after(output, b, Event::Host(b'S'));
    let b = slots(output, b, 2);
    let b = after(output, b, Event::Host(b't'));
    slots(output, b, 2);
    print::say(output, b"\n");
}

// 001 section C.6.1: "If a byte is received between the characters of a multibyte report, the mouse .. will abort the current report."
fn aborted(output: Stdout) {
    print::say(output, b"001 section C.6.1");
    let b = after(output, BallBox::fresh(), Event::Host(b'S'));
    let b = after(output, b, Event::Host(b'P'));
    let b = slots(output, b, 1);
    let b = after(output, b, Event::Host(b'P'));
    slots(output, b, 4);
    print::say(output, b"\n");
}

// 001 section C.6.3: "In prompt mode, the mouse generates a report only in response to a request mouse position command."
fn requested(output: Stdout) {
    print::say(output, b"001 section C.6.3");
    let b = after(output, BallBox::fresh(), Event::Host(b'S'));
    let b = after(output, b, Event::Host(b'D'));
    let b = after(output, b, Event::Buttons(4));
    let b = after(output, b, Event::Motion(5, -3));
    let b = after(output, b, Event::Period);
    let b = slots(output, b, 1);
    let b = after(output, b, Event::Host(b'P'));
    slots(output, b, 4);
    print::say(output, b"\n");
}

// 001 section C.6.4: "The mouse ignores invalid commands."
fn invalid(output: Stdout) {
    print::say(output, b"001 section C.6.4");
    let b = after(output, BallBox::fresh(), Event::Host(b'Z'));
    let b = after(output, b, Event::Host(b'x'));
    let b = after(output, b, Event::Host(b't'));
    slots(output, b, 2);
    print::say(output, b"\n");
}

// 001 section C.6.6: 100 starts a report of the mouse; 101, 110 and 111 start none that the reader knows.
// The first four bytes are a self-test report as in C.6.5, with its example, a left button error.
fn starts(output: Stdout) {
    print::say(output, b"001 section C.6.6");
    let words = [0xA0u16, 0x02, 0x3D, 0x04, 0xC0, 0xE0, 0x94, 0x05, 0x03];
    answers(output, b'S', &words);
}

// 001 section C.7.1: S selects the format, R stream mode and D prompt mode.
fn initialized(output: Stdout) {
    print::say(output, b"001 section C.7.1");
    let b = after(output, BallBox::fresh(), Event::Host(b'S'));
    let b = after(output, b, Event::Host(b'R'));
    let b = after(output, b, Event::Host(b't'));
    let b = slots(output, b, 2);
    let b = after(output, b, Event::Host(b'D'));
    let b = after(output, b, Event::Host(b't'));
    slots(output, b, 2);
    print::say(output, b"\n");
}

pub(crate) fn examples(output: Stdout) {
    print::say(output, b"Examples of the manuals\n");
    space(output);
    second_pair(output);
    hexadecimal(output);
    prompt(output);
    cleared_counters(output);
    diagnostic(output);
    letters(output);
    reprogrammed(output);
    dormant(output);
    aborted(output);
    requested(output);
    invalid(output);
    starts(output);
    initialized(output);
}
