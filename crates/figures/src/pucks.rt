// The Digital VSXXX puck from power-up on, what its reader makes of its words, and the manual's examples of its self-test.
use crate::print;
use crate::steps::{Device, Given, Run, on, refusal, sends, started};
use ballbox::Event;
use puck::Puck;
use puckreader::{PuckAnswer, PuckReader};
use std::io::Stdout;
use vsxxx::SelfTest;

impl Device for Puck {
    fn given(self, e: Event) -> Given<Puck> {
        let stepped = self.step(e);
        Given {
            refusal: stepped.refusal,
            sent: stepped.sent,
            word: stepped.word,
            next: stepped.next,
        }
    }
}

// Power-up with these buttons, of a puck of revision 1 and maker 3.
fn powered(output: Stdout, buttons: u8) -> Run<Puck> {
    print::say(output, b", Power-up ");
    print::buttons(output, buttons);
    started(Puck::made(buttons, 1, 3))
}

// A self-test: revision, maker, device, error and buttons.
fn self_test(output: Stdout, t: SelfTest) {
    print::say(output, b" gives self-test ");
    print::small(output, t.revision);
    print::say(output, b" ");
    print::small(output, t.maker);
    print::say(output, b" ");
    print::small(output, t.device);
    print::say(output, b" ");
    print::byte(output, t.error);
    print::say(output, b" ");
    print::buttons(output, t.buttons);
}

fn answer(output: Stdout, a: PuckAnswer) {
    match a {
        PuckAnswer::Nothing => {}
        PuckAnswer::Movement(r) => {
            print::say(output, b" gives ");
            print::report(output, r);
        }
        PuckAnswer::Test(t) => {
            self_test(output, t);
        }
        PuckAnswer::Dropped(k) => {
            print::say(output, b" drops ");
            print::small(output, k);
        }
    }
}

// The reader after a word.
fn heard(output: Stdout, r: PuckReader, word: u16) -> PuckReader {
    print::say(output, b", ");
    print::word(output, word);
    match r.step(word) {
        Ok(read) => {
            answer(output, read.answer);
            read.next
        }
        Err(refused) => {
            refusal(output, refused.number());
            r
        }
    }
}

// A fresh reader's answers to words, one after the other.
fn answers(output: Stdout, words: &[u16]) {
    let mut next = PuckReader::fresh();
    for word in words {
        next = heard(output, next, *word);
    }
    print::say(output, b", keeps ");
    print::small(output, next.count);
}

// The same to the words of a run.
fn answers_to(output: Stdout, run: Run<Puck>) {
    if let Some(words) = run.line.words.get(..run.line.count) {
        answers(output, words);
    }
}

// "error 3DH and the buttons if any is down".
fn left_down(output: Stdout) {
    print::say(output, b"Left down");
    let r = sends(output, powered(output, 4), 5);
    print::say(output, b"\nLeft down");
    answers_to(output, r);
    print::say(output, b"\n");
}

// T breaks off the report, and "clear[s] all but the buttons": the 9 counted since are in no report.
fn t_in_a_report(output: Stdout) {
    print::say(output, b"T in a report");
    let r = sends(output, powered(output, 0), 4);
    let r = on(output, r, Event::Motion(5, 3));
    let r = on(output, r, Event::Host(b'P'));
    let r = on(output, r, Event::Latch);
    let r = sends(output, r, 1);
    let r = on(output, r, Event::Motion(9, 0));
    let r = on(output, r, Event::Buttons(1));
    let r = on(output, r, Event::Host(b'T'));
    let r = sends(output, r, 4);
    let r = on(output, r, Event::Host(b'P'));
    let r = on(output, r, Event::Latch);
    let r = sends(output, r, 3);
    print::say(output, b"\nT in a report");
    answers_to(output, r);
    print::say(output, b"\n");
}

// "Until its last byte has gone host bytes do nothing": T, R and P are lost, and only the last P is obeyed. Motion counts.
fn bytes_in_a_test(output: Stdout) {
    print::say(output, b"Bytes in a test");
    let r = sends(output, powered(output, 0), 1);
    let r = on(output, r, Event::Host(b'T'));
    let r = on(output, r, Event::Host(b'R'));
    let r = on(output, r, Event::Motion(7, -2));
    let r = sends(output, r, 1);
    let r = on(output, r, Event::Host(b'P'));
    let r = sends(output, r, 1);
    let r = on(output, r, Event::Latch);
    let r = sends(output, r, 2);
    let r = on(output, r, Event::Host(b'P'));
    let r = on(output, r, Event::Latch);
    let r = sends(output, r, 3);
    print::say(output, b"\nBytes in a test");
    answers_to(output, r);
    print::say(output, b"\n");
}

// A self-test of which the first bytes are missing, and one that lost its second: a report behind each.
fn damaged(output: Stdout) {
    print::say(output, b"Joined halfway");
    let joined = [0x3Du16, 0x04, 0x9C, 0x05, 0x03];
    answers(output, &joined);
    print::say(output, b"\nLost byte");
    let lost = [0xA1u16, 0x3D, 0x04, 0x9C, 0x05, 0x03];
    answers(output, &lost);
    print::say(output, b"\n");
}

// Six numbers, each behind a blank.
fn six(output: Stdout, numbers: &[i16; 6]) {
    for n in numbers {
        print::say(output, b" ");
        print::signed(output, *n);
    }
}

// 001 section C.6.5: a self-test of revision 0 and maker 0, word by word and in a long read.
fn tested(output: Stdout, device: u16, error: u16, buttons: u16) {
    print::say(output, b"001 section C.6.5");
    let words = [0xA0u16, device, error, buttons];
    answers(output, &words);
    let mut numbers = [0i16; 6];
    let reader = PuckReader::fresh();
    reader.read(&words, &mut numbers);
    print::say(output, b", numbers");
    six(output, &numbers);
    print::say(output, b"\n");
}

// 001 section C.6.6: "100", "101", and two beginnings that the puck has no reports of.
fn starts(output: Stdout) {
    print::say(output, b"001 section C.6.6");
    let words = [0xA0u16, 0x02, 0x3D, 0x04, 0xC0, 0xE0, 0x94, 0x05, 0x03];
    answers(output, &words);
    print::say(output, b"\n");
}

// 001 section C.7.1: "Read the power-up self-test report"; "Send ASCII S [..] Send ASCII R": S is no command of the puck's.
fn initialized(output: Stdout) {
    print::say(output, b"001 section C.7.1");
    let r = sends(output, powered(output, 0), 4);
    let r = on(output, r, Event::Host(b'S'));
    let r = on(output, r, Event::Host(b'R'));
    let r = on(output, r, Event::Buttons(4));
    let r = on(output, r, Event::Motion(5, -3));
    let r = on(output, r, Event::Latch);
    let r = sends(output, r, 3);
    let r = on(output, r, Event::Motion(1, 0));
    let r = on(output, r, Event::Latch);
    let r = sends(output, r, 1);
    let r = on(output, r, Event::Period);
    let r = on(output, r, Event::Latch);
    sends(output, r, 3);
    print::say(output, b"\n");
}

pub(crate) fn runs(output: Stdout) {
    print::say(output, b"The VSXXX puck\n");
    left_down(output);
    t_in_a_report(output);
    bytes_in_a_test(output);
    damaged(output);
    // "04 (hex) would mean a left button error"; ">" a checksum error; "20 (hex) or greater [..] fatal"; "0100 - Indicates tablet data"
    tested(output, 0x02, 0x3D, 0x04);
    tested(output, 0x02, 0x3E, 0x00);
    tested(output, 0x02, 0x20, 0x00);
    tested(output, 0x02, 0x1F, 0x00);
    tested(output, 0x04, 0x00, 0x00);
    starts(output);
    initialized(output);
}
