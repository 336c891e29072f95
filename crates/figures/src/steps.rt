// Steps of the box and of the reader, each shown with what it gives.
use crate::print;
use ballbox::{BallBox, Event};
use reader::{Answer, Reader};
use std::io::Stdout;

// A byte of the host's: as its character where it has one, else in hexadecimal.
fn host(output: Stdout, byte: u8) {
    if byte.is_ascii_graphic() {
        print::say(output, &[byte]);
    } else {
        print::byte(output, byte);
    }
}

fn event(output: Stdout, e: Event) {
    match e {
        Event::Motion(dx, dy) => {
            print::say(output, b", Motion(");
            print::signed(output, dx);
            print::say(output, b", ");
            print::signed(output, dy);
            print::say(output, b")");
        }
        Event::Buttons(n) => {
            print::say(output, b", Buttons ");
            print::buttons(output, n);
        }
        Event::Host(byte) => {
            print::say(output, b", Host ");
            host(output, byte);
        }
        Event::Latch => {
            print::say(output, b", Latch");
        }
        Event::Send => {
            print::say(output, b", Send");
        }
        Event::Period => {
            print::say(output, b", Period");
        }
    }
}

// The word, if one is sent.
fn sent(output: Stdout, count: u8, word: u16) {
    if count == 1 {
        print::say(output, b" gives ");
        print::word(output, word);
    }
}

// A refusal, if there is one.
pub(crate) fn refusal(output: Stdout, number: u8) {
    if number != 0 {
        print::say(output, b" refusal ");
        print::small(output, number);
    }
}

// The words that a run has room for.
const ROOM: usize = 32;

// The words that a run gave, as many as there is room for: a run is passed by value, and no heap is used.
#[derive(Clone, Copy, Drop)]
pub(crate) struct Line {
    pub(crate) words: [u16; ROOM],
    pub(crate) count: usize,
}

fn no_words() -> Line {
    Line {
        words: [0; ROOM],
        count: 0,
    }
}

// A word behind the others.
fn with_word(mut line: Line, word: u16) -> Line {
    if line.count < ROOM {
        line.words[line.count] = word;
        line.count += 1;
    }
    line
}

fn noted(line: Line, count: u8, word: u16) -> Line {
    if count == 1 {
        with_word(line, word)
    } else {
        line
    }
}

// What an event gives: a refusal, how many words, the word, and the device behind it.
pub(crate) struct Given<D> {
    pub(crate) refusal: u8,
    pub(crate) sent: u8,
    pub(crate) word: u16,
    pub(crate) next: D,
}

// What takes events and sends words: the box, and the puck.
pub(crate) trait Device: Sized {
    fn given(self, e: Event) -> Given<Self>;
}

impl Device for BallBox {
    fn given(self, e: Event) -> Given<BallBox> {
        let stepped = self.step(e);
        Given {
            refusal: stepped.refusal,
            sent: stepped.sent,
            word: stepped.word,
            next: stepped.next,
        }
    }
}

// A run of a device: the device, and the words that it gave.
#[derive(Clone, Copy, Drop)]
pub(crate) struct Run<D> {
    pub(crate) device: D,
    pub(crate) line: Line,
}

// A run from a device on.
pub(crate) fn started<D>(device: D) -> Run<D> {
    Run {
        device,
        line: no_words(),
    }
}

// The run after an event.
pub(crate) fn on<D: Device>(output: Stdout, run: Run<D>, e: Event) -> Run<D> {
    let Run { device, line } = run;
    let Given {
        refusal: number,
        sent: count,
        word,
        next,
    } = device.given(e);
    event(output, e);
    refusal(output, number);
    sent(output, count, word);
    Run {
        device: next,
        line: noted(line, count, word),
    }
}

// The run after so many words more, with no Latch.
pub(crate) fn sends<D: Device>(output: Stdout, run: Run<D>, count: u8) -> Run<D> {
    let mut next = run;
    for _ in 0..count {
        next = on(output, next, Event::Send);
    }
    next
}

// The run after time for so many characters: each is latched for, and sent.
pub(crate) fn on_slots(output: Stdout, run: Run<BallBox>, count: u8) -> Run<BallBox> {
    let mut next = run;
    for _ in 0..count {
        next = on(output, next, Event::Latch);
        next = on(output, next, Event::Send);
    }
    next
}

// The box after an event.
pub(crate) fn after(output: Stdout, b: BallBox, e: Event) -> BallBox {
    on(output, started(b), e).device
}

// The box after time for so many characters.
pub(crate) fn slots(output: Stdout, b: BallBox, count: u8) -> BallBox {
    on_slots(output, started(b), count).device
}

fn answer(output: Stdout, a: Answer) {
    match a {
        Answer::Nothing => {}
        Answer::Report(r) => {
            print::say(output, b" gives ");
            print::report(output, r);
        }
        Answer::Dropped(k) => {
            print::say(output, b" drops ");
            print::small(output, k);
        }
    }
}

// The reader after a word.
fn heard(output: Stdout, r: Reader, word: u16) -> Reader {
    print::say(output, b", ");
    print::word(output, word);
    match r.step(word) {
        Ok(step) => {
            answer(output, step.answer);
            step.next
        }
        Err(refused) => {
            refusal(output, refused.number());
            r
        }
    }
}

// What the yard check says of words: that they are a box's, or from which on, the first being 0, they are no box's.
fn judged(output: Stdout, letter: u8, words: &[u16]) {
    let c = yard::check(letter, words);
    if c.proper == 1 {
        print::say(output, b", a box's\n");
    } else {
        print::say(output, b", no box's from word ");
        print::number(output, c.sendable);
        print::say(output, b"\n");
    }
}

// A fresh reader's answers to words, one after the other, and what the yard check says of them.
pub(crate) fn answers(output: Stdout, letter: u8, words: &[u16]) {
    let mut next = Reader::fresh(letter).unwrap_or_default();
    for word in words {
        next = heard(output, next, *word);
    }
    print::say(output, b", keeps ");
    print::small(output, next.count);
    judged(output, letter, words);
}

// The same to the words of a run.
pub(crate) fn answers_to(output: Stdout, letter: u8, run: Run<BallBox>) {
    if let Some(words) = run.line.words.get(..run.line.count) {
        answers(output, letter, words);
    }
}
