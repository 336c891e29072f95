// The reader: long reads.
use crate::{Stand, draws, mixes};
use reader::{Reader, Reading};

fn fresh_of(letter: u8) -> Reader {
    Reader::fresh(letter).unwrap_or_default()
}

pub(crate) fn first() -> Stand<Reader> {
    Stand {
        sum: 0,
        next: fresh_of(b'U'),
    }
}

// Any reader, good or not.
pub(crate) fn any(call: u64) -> Reader {
    Reader {
        format: draws::letter(call, 10),
        kept: [
            draws::byte(call, 13, 256),
            draws::byte(call, 14, 64),
            0,
            0,
            0,
        ],
        count: draws::byte(call, 15, 6),
        awaiting: draws::mark(call, 11, 2),
    }
}

// The reader of a call: a fresh one, any, or the one that came back before.
fn chosen(last: Reader, call: u64) -> Reader {
    match draws::drawn(call, 1, 16) {
        0 => fresh_of(draws::letter(call, 2)),
        1 => any(call),
        _ => last,
    }
}

// The first of words, and the front of a slice.
fn lent(reader: Reader, words: &[u16], count: usize, out: &mut [i16], room: usize) -> Reading {
    let some = count.min(words.len());
    let places = room.min(out.len());
    reader.read(&words[..some], &mut out[..places])
}

fn mixed(h: u64, a: Reading) -> u64 {
    let taken = mixes::number(
        mixes::byte(h, a.refusal.map_or(0, |r| r.number())),
        a.taken as u64,
    );
    let counts = mixes::number(mixes::number(taken, a.reports as u64), a.dropped as u64);
    mixes::reader(counts, a.next)
}

// Many words, to a slice that holds sevens.
pub(crate) fn turn(last: Stand<Reader>, call: u64) -> Stand<Reader> {
    let words = [
        draws::word(call, 30),
        draws::word(call, 31),
        draws::word(call, 32),
        draws::word(call, 33),
        draws::word(call, 34),
        draws::word(call, 35),
        draws::word(call, 36),
        draws::word(call, 37),
    ];
    let mut out = [7i16; 12];
    let reader = chosen(last.next, call);
    let a = lent(
        reader,
        &words,
        draws::at(call, 40, 9),
        &mut out,
        draws::at(call, 41, 13),
    );
    Stand {
        sum: mixes::numbers(mixed(last.sum, a), &out),
        next: a.next,
    }
}
