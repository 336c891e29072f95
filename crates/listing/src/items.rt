// What is found in a recording, to items of the listing.
ghost use Rattle.std.specs.Prelude.{◌≡◌, ◌+ℤ◌};
ghost use Rattle.listing.specs.Items.{middle_of, buttons_of, report_item, answer_given, format_gave, word_gave, gave_of};

use crate::{Buttons, Found, Gave, Item, Middle};
use reader::{Answer, Reader};
use wire::Report;

// The middle button, which V does not have.
fn middle(letter: u8, buttons: u16) -> Middle
    ensures { result ≡ middle_of letter buttons }
{
    if letter == b'V' {
        Middle::Unknown
    } else if buttons / 2 % 2 == 1 {
        Middle::Down
    } else {
        Middle::Up
    }
}

pub(crate) fn buttons(letter: u8, buttons: u16) -> Buttons
    ensures { result ≡ buttons_of letter buttons }
{
    Buttons {
        left: buttons / 4 % 2 == 1,
        middle: middle(letter, buttons),
        right: buttons % 2 == 1,
    }
}

// Two movements summed.
pub(crate) fn sum(a: i16, b: i16) -> i64
    ensures { result ≡ a +ℤ b }
{
    i64::from(a) + i64::from(b)
}

pub(crate) fn report(letter: u8, n: u32, p: Report) -> Item
    ensures { result ≡ report_item letter n p }
{
    Item::R(
        n,
        buttons(letter, u16::from(p.buttons)),
        sum(p.x1, p.x2),
        sum(p.y1, p.y2),
    )
}

// The answer to the word of line n.
fn answered(letter: u8, n: u32, answer: Answer) -> Option<Item>
    ensures { result ≡ answer_given letter n answer }
{
    match answer {
        Answer::Nothing => None,
        Answer::Report(p) => Some(report(letter, n, p)),
        Answer::Dropped(k) => Some(Item::D(n, k as u16)),
    }
}

// A word of line n.
fn word(reader: Reader, n: u32, word: u16) -> Gave
    ensures { result ≡ word_gave reader n word }
{
    match reader.step(word) {
        Ok(step) => Gave {
            next: step.next,
            given: answered(reader.format, n, step.answer),
        },
        Err(_) => Gave {
            next: reader,
            given: None,
        },
    }
}

// The reader of a format.
fn format(letter: u8) -> Gave
    ensures { result ≡ format_gave letter }
{
    Gave {
        next: Reader::fresh(letter).unwrap_or_default(),
        given: None,
    }
}

// What is found, read.
pub(crate) fn gave(reader: Reader, found: Found) -> Gave
    ensures { result ≡ gave_of reader found }
{
    match found {
        Found::Nothing => Gave {
            next: reader,
            given: None,
        },
        Found::Format(letter) => format(letter),
        Found::Word(n, w) => word(reader, n, w),
        Found::Bad(n) => Gave {
            next: reader,
            given: Some(Item::E(n)),
        },
        Found::Over => Gave {
            next: reader,
            given: Some(Item::Over),
        },
        Found::End => Gave {
            next: reader,
            given: Some(Item::H(reader.count as u16)),
        },
    }
}
