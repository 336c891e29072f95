// The log of a recording: what the scanner finds, word after word, until something stands alone.
ghost use Rattle.std.specs.Prelude.{◌≡◌, length};
ghost use Rattle.salvage.specs.Picking.{most_words};
ghost use Rattle.listing.specs.Scanning.{closed_of, end_of};
ghost use Rattle.salvaged.specs.Log.{marked, word_heard, new_heard, heard, log_of};
ghost use Rattle.salvaged.specs.Hearing.{Numbered, log_in, Fine, Hears};

use crate::Heard;
use listing::{Found, Item, Scanner};
use salvage::MOST;

fn made(letter: u8, count: usize, alone: Option<Item>) -> Heard
    ensures { result ≡ record { letter = letter; count = count; alone = alone } }
{
    Heard {
        letter,
        count,
        alone,
    }
}

// What stands alone where the format is marked.
fn marked(letter: u8) -> Option<Item>
    ensures { result ≡ marked letter }
{
    if wire::marked(letter) {
        return Some(Item::E(1));
    }
    None
}

// A word more, or that it is one too many.
fn word(log: Heard, w: u16, words: &mut [u16]) -> Heard
    requires { Fine log words.old }
    ensures { Hears (word_heard (log_in log words.old) w) result words.new }
{
    let n = log.count;
    if n >= MOST {
        return made(log.letter, n, Some(Item::Over));
    }
    words[n] = w;
    made(log.letter, n + 1, None)
}

// What is found, where nothing stands alone yet.
fn news(log: Heard, found: Found, words: &mut [u16]) -> Heard
    requires { Fine log words.old × Numbered found }
    ensures { Hears (new_heard (log_in log words.old) found) result words.new }
{
    let n = log.count;
    match found {
        Found::Nothing => log,
        Found::Format(letter) => made(letter, n, marked(letter)),
        Found::Word(_, w) => word(log, w, words),
        Found::Bad(line) => made(log.letter, n, Some(Item::E(line))),
        Found::Over => made(log.letter, n, Some(Item::Over)),
        Found::End => log,
    }
}

// Nothing is heard behind what stands alone.
fn hear(log: Heard, found: Found, words: &mut [u16]) -> Heard
    requires { Fine log words.old × Numbered found }
    ensures { Hears (heard (log_in log words.old) found) result words.new }
{
    match log.alone {
        None => news(log, found, words),
        Some(_) => log,
    }
}

// The last line, and the end of the input.
fn end(scanner: Scanner, log: Heard, words: &mut [u16]) -> Heard
    requires { Fine log words.old }
    ensures { Hears (heard (heard (log_in log words.old) (closed_of scanner).found) (end_of (closed_of scanner).next).found) result words.new }
{
    let closed = scanner.closed();
    let behind = hear(log, closed.found, words);
    hear(behind, closed.next.end().found, words)
}

// The log of an input, byte by byte. Most of them find nothing, and leave the log where it is.
pub(crate) fn read(input: &[u8], words: &mut [u16]) -> Heard
    requires { length words.old ≡ most_words }
    ensures { Hears (log_of input.now) result words.new }
{
    let mut scanner = Scanner {
        line: 0,
        ended: false,
        held: [0, 0, 0, 0, 0],
        count: 0,
    };
    let mut log = made(0, 0, None);
    for byte in input {
        let scan = scanner.byte(*byte);
        scanner = scan.next;
        match scan.found {
            Found::Nothing => {}
            found => log = hear(log, found, words),
        }
    }
    end(scanner, log, words)
}
