// The lister: pieces of a text that has two recordings, and their ends.
ghost use Rattle.std.specs.Prelude.{◌≤◌};

use crate::{Stand, draws, mixes, readers};
use listing::{Listed, Lister, Scanner};

// A lister, and how far in the text it is.
#[derive(Clone, Copy, Drop)]
pub(crate) struct Place {
    lister: Lister,
    at: usize,
}

pub(crate) fn first() -> Stand<Place> {
    Stand {
        sum: 0,
        next: Place {
            lister: Lister::fresh(),
            at: 0,
        },
    }
}

// Any lister, good or not.
fn any(call: u64) -> Lister {
    let line = 990_000 * draws::drawn(call, 112, 2) + draws::drawn(call, 105, 10002);
    Lister {
        scanner: Scanner {
            line: line as u32,
            ended: draws::mark(call, 101, 16),
            held: [66, 9, draws::byte(call, 103, 64), 0, 0],
            count: draws::at(call, 104, 8),
        },
        reader: readers::any(call),
    }
}

// The lister of a call: a fresh one at either recording, any, or the one that came back before.
fn chosen(last: Place, call: u64) -> Place {
    match draws::at(call, 107, 32) {
        0 => Place {
            lister: Lister::fresh(),
            at: 0,
        },
        1 => Place {
            lister: Lister::fresh(),
            at: 48,
        },
        2 => Place {
            lister: any(call),
            at: draws::at(call, 106, 88),
        },
        _ => last,
    }
}

fn mixed(h: u64, a: Listed, out: &[u8; 60]) -> u64 {
    let lister = a.next;
    let scanner = lister.scanner;
    let ended = mixes::byte(
        mixes::byte(h, a.refusal.map_or(0, |r| r.number())),
        a.ended as u8,
    );
    let counts = mixes::number(mixes::number(ended, a.taken as u64), a.written as u64);
    let line = mixes::byte(
        mixes::number(counts, scanner.line as u64),
        scanner.ended as u8,
    );
    let kept = mixes::number(mixes::bytes(line, &scanner.held), scanner.count as u64);
    mixes::bytes(mixes::reader(kept, lister.reader), out)
}

// Behind the text it begins again.
fn begun(at: usize, length: usize) -> usize
    ensures { result ≤ length }
{
    if at < length { at } else { 0 }
}

// So many bytes further, or the end of the text.
fn further(at: usize, count: usize, length: usize) -> usize
    requires { at ≤ length }
    ensures { (at ≤ result) × (result ≤ length) }
{
    at + count.min(length - at)
}

fn fed(lister: Lister, piece: &[u8], out: &mut [u8], room: usize) -> Listed {
    let places = room.min(out.len());
    lister.feed(piece, &mut out[..places])
}

fn finished(lister: Lister, out: &mut [u8], room: usize) -> Listed {
    let places = room.min(out.len());
    lister.finish(&mut out[..places])
}

// A piece of the text, from where the lister is in it.
fn feed(last: Stand<Place>, text: &[u8], call: u64) -> Stand<Place> {
    let mut out = [46u8; 60];
    let at = begun(last.next.at, text.len());
    let end = further(at, draws::at(call, 109, 12), text.len());
    let room = draws::at(call, 108, 61);
    let a = fed(last.next.lister, &text[at..end], &mut out, room);
    Stand {
        sum: mixed(last.sum, a, &out),
        next: Place {
            lister: a.next,
            at: further(at, a.taken, text.len()),
        },
    }
}

fn finish(last: Stand<Place>, call: u64) -> Stand<Place> {
    let mut out = [46u8; 60];
    let a = finished(last.next.lister, &mut out, draws::at(call, 110, 61));
    Stand {
        sum: mixed(last.sum, a, &out),
        next: Place {
            lister: a.next,
            at: last.next.at,
        },
    }
}

// A piece, and then the end: seldom the next piece goes to the lister behind the end.
fn pieces(last: Stand<Place>, text: &[u8], call: u64) -> Stand<Place> {
    let start = Stand {
        sum: last.sum,
        next: chosen(last.next, call),
    };
    let fed = feed(start, text, call);
    let ended = finish(fed, call);
    Stand {
        sum: ended.sum,
        next: if draws::mark(call, 111, 16) {
            ended.next
        } else {
            fed.next
        },
    }
}

pub(crate) fn turn(last: Stand<Place>, call: u64) -> Stand<Place> {
    pieces(
        last,
        b"F\tS\nQ\nB\t148\nB\t5\nB\t3\nB\t148\nB\t152\nX\nB\t154\nB\t7\nB\t9\nF\tV\nB\t108\nB\t5\nB\t61\nB\t236\nQ\nB\t64\nZ\nB\t256\n",
        call,
    )
}
