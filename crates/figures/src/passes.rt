// A line of words through the reader, in as many calls as it takes.
ghost use Rattle.std.specs.Prelude.{◌+◌, ◌*◌, ◌≤◌, length};

use reader::{Reader, Reading};

// How a line is handed over: at most so many words and so many places in a call.
#[derive(Clone, Copy, Drop)]
pub(crate) struct Cut {
    pub(crate) words: usize,
    pub(crate) places: usize,
}

// What the calls gave: how many they were, the words taken, the reports written and the bytes dropped.
#[derive(Clone, Copy, Drop)]
pub(crate) struct Pass {
    pub(crate) calls: usize,
    pub(crate) taken: usize,
    pub(crate) reports: usize,
    pub(crate) dropped: usize,
}

// A call: the next words of the line, and places that are not used yet.
fn call(reader: Reader, cut: Cut, words: &[u16], out: &mut [i16]) -> Reading
    ensures taken { result.taken ≤ length words.now }
    ensures room { 5 * result.reports ≤ length out.old }
    ensures few { result.dropped + result.next.count ≤ result.taken + reader.count }
{
    let some = cut.words.min(words.len());
    let places = cut.places.min(out.len());
    reader.read(&words[..some], &mut out[..places])
}

// The whole line, from a fresh reader on; each call has the reader that came back from the one before.
pub(crate) fn passed(letter: u8, cut: Cut, words: &[u16], out: &mut [i16]) -> Pass {
    let mut next = Reader::fresh(letter).unwrap_or_default();
    let mut rest = words;
    let mut calls: usize = 0;
    let mut taken: usize = 0;
    let mut reports: usize = 0;
    let mut dropped: usize = 0;
    while !rest.is_empty() {
        let read = call(next, cut, rest, &mut out[5 * reports..]);
        if read.taken == 0 {
            break;
        }
        next = read.next;
        rest = &rest[read.taken..];
        calls += 1;
        taken += read.taken;
        reports += read.reports;
        dropped += read.dropped;
    }
    Pass {
        calls,
        taken,
        reports,
        dropped,
    }
}
