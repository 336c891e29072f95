// Over many words: a line, and the numbers of its reports to a lent slice.
ghost use Rattle.std.specs.Prelude.{◌≡◌, true, not, ◌&&◌, ◌*◌, ◌<◌, ◌≤◌, ◌++◌, length, drop, eqb};
ghost use Rattle.reader.specs.State.{ready, five_of, read_in};
ghost use Rattle.fold.specs.Calls.{line};
ghost use Rattle.reader.specs.Line.{reading_in, whole, reads_line};
ghost use Rattle.reader.specs.Good.{good};
ghost use Rattle.reader.specs.Parts.{Stands, Begins, first_of, Alike, AwaitsBehind};

use crate::letters::by_letter;
use crate::state::no_bytes;
use crate::whole::{passed, whole};
use crate::{Answer, Reader, Reading, Step};
use wire::{Refusal, Report, SILENCE};

// The five numbers of a report, to the front of a slice.
#[inline(always)]
pub(crate) fn put(out: &mut [i16], report: Report)
    requires { 5 ≤ length out.old }
    ensures { out.new ≡ five_of report ++ drop 5 out.old }
{
    out[0] = report.buttons as i16;
    out[1] = report.x1;
    out[2] = report.y1;
    out[3] = report.x2;
    out[4] = report.y2;
}

// A line of which words, reports and bytes are counted so far.
#[inline(always)]
pub(crate) fn reading(
    refusal: Option<Refusal>,
    next: Reader,
    taken: usize,
    reports: usize,
    dropped: usize,
) -> Reading
    ensures { result ≡ record { refusal = refusal; next = next; taken = taken; reports = reports; dropped = dropped } }
{
    Reading {
        refusal,
        next,
        taken,
        reports,
        dropped,
    }
}

// How many of the words at the front lie between two.
#[inline(always)]
fn alike(low: u16, high: u16, words: &[u16]) -> usize
    ensures { Alike low high result words.now }
{
    for (n, word) in words.iter().enumerate() {
        if (*word < low) | (*word > high) {
            return n;
        }
    }
    words.len()
}

impl Reader {
    // What a word's answer makes of a line that begins with it, and its report to the front of the places that are left.
    #[inline(always)]
    fn counted(self, heard: Result<Step, Refusal>, out: &mut [i16]) -> Reading
        ensures { whole (reading_in result) out.new ≡ first_of self (read_in self heard) out.old }
    {
        let step = match heard {
            Ok(step) => step,
            Err(refusal) => return reading(Some(refusal), self, 0, 0, 0),
        };
        let next = step.next;
        match step.answer {
            Answer::Nothing => reading(None, next, 1, 0, 0),
            Answer::Dropped(k) => reading(None, next, 1, 0, k as usize),
            Answer::Report(report) => {
                if out.len() < 5 {
                    return reading(None, self, 0, 0, 0);
                }
                put(out, report);
                reading(None, next, 1, 1, 0)
            }
        }
    }

    // The first word of a part of the line.
    #[inline(always)]
    fn first(self, letter: u8, words: &[u16], out: &mut [i16]) -> Reading
        requires { (letter ≡ self.format) × (good self ≡ true) × (0 < length words.now) }
        ensures { Begins self words.now out.old (reading_in result) out.new × AwaitsBehind self words.now (reading_in result) }
    {
        let heard = self.word(letter, words[0]);
        self.counted(heard, out)
    }

    // Whether the reader is ready: whole reports may stand before it.
    #[inline(always)]
    fn is_ready(self) -> bool
        ensures { result ≡ (eqb self.count 0 && not self.awaiting) }
    {
        (self.count == 0) & !self.awaiting
    }

    // Whether a whole report stands at the front of a line before a ready reader.
    #[inline(always)]
    fn begins(self, words: &[u16]) -> bool
        requires { good self ≡ true }
        ensures { result ≡ true → self ≡ ready self.format }
    {
        if !self.is_ready() || words.len() < wire::size(self.format) {
            return false;
        }
        whole(self.format, words)
    }

    // Words one by one, up to a report or a silence, behind which whole reports may stand. Where U, T or W lost a byte they await a silence, and each byte
    // behind it is dropped alone.
    // The loop moves on by as many words as were taken, and their number is given back: a slice that shrinks would be counted beside it.
    #[inline(always)]
    fn slowly(self, letter: u8, words: &[u16], out: &mut [i16]) -> Reading
        requires { (letter ≡ self.format) × (good self ≡ true) }
        ensures { Begins self words.now out.old (reading_in result) out.new }
    {
        let awaits = !wire::marked(letter);
        let mut r = self;
        let mut at: usize = 0;
        let mut dropped: usize = 0;
        while at < words.len() {
            let word = words[at];
            let t = r.first(letter, &words[at..], out);
            if t.taken == 0 {
                return reading(t.refusal, r, at, 0, dropped);
            }
            r = t.next;
            at += t.taken;
            dropped += t.dropped;
            if (t.reports != 0) | (word == SILENCE) {
                return reading(None, r, at, t.reports, dropped);
            }
            if awaits & (t.dropped != 0) & (word <= 255) {
                let n = alike(0, 255, &words[at..]);
                at += n;
                dropped += n;
            }
        }
        reading(None, r, at, 0, dropped)
    }

    // The same, each letter with code of its own.
    #[inline(always)]
    fn one_by_one(self, words: &[u16], out: &mut [i16]) -> Reading
        requires { good self ≡ true }
        ensures { Begins self words.now out.old (reading_in result) out.new }
    {
        by_letter!(self.format, letter => self.slowly(letter, words, out))
    }

    // The words at the front of a line, where that is worth a try and the reader is ready: whole reports, silences, and words one by one up to where it is
    // ready again; as long as it is.
    // The loop moves on by as many words as were taken (see `slowly`).
    #[inline(always)]
    fn swiftly(self, quick: bool, words: &[u16], out: &mut [i16]) -> Reading
        requires { good self ≡ true }
        ensures { Stands self words.now out.old result.next result.taken (5 * result.reports) result.reports result.dropped out.new × (good result.next ≡ true) × (result.next.format ≡ self.format) }
    {
        if !quick {
            return reading(None, self, 0, 0, 0);
        }
        if !self.is_ready() {
            return reading(None, self, 0, 0, 0);
        }
        let ready = no_bytes(self.format, false);
        let mut at: usize = 0;
        let mut reports: usize = 0;
        let mut dropped: usize = 0;
        while at < words.len() {
            let q = passed(self.format, &words[at..], &mut out[5 * reports..]);
            at += q.taken;
            reports += q.reports;
            let n = alike(SILENCE, SILENCE, &words[at..]);
            if n > 0 {
                at += n;
                continue;
            }
            let t = ready.one_by_one(&words[at..], &mut out[5 * reports..]);
            at += t.taken;
            reports += t.reports;
            dropped += t.dropped;
            if !t.next.is_ready() | (t.taken == 0) {
                return reading(None, t.next, at, reports, dropped);
            }
        }
        reading(None, ready, at, reports, dropped)
    }

    // A line of one word.
    #[inline(always)]
    fn single(self, words: &[u16], out: &mut [i16]) -> Reading
        requires { (good self ≡ true) × (length words.now ≡ 1) }
        ensures { whole (reading_in result) out.new ≡ line reads_line self words.now out.old }
    {
        let heard = self.word(self.format, words[0]);
        self.counted(heard, out)
    }

    // The words of a line: swiftly where the reader is ready, and one by one up to where it may be again, or may go no further. What is left of the line, from
    // the next word on, is handed over with the reader that came back and the places that are left.
    // A call may bring a word or a few: one word is taken by itself, and a line that begins with no whole report begins one by one.
    // The loop moves on by as many words as were taken (see `slowly`).
    #[inline(always)]
    pub(crate) fn line(self, words: &[u16], out: &mut [i16]) -> Reading
        requires { good self ≡ true }
        ensures { whole (reading_in result) out.new ≡ line reads_line self words.now out.old }
    {
        if words.len() == 1 {
            return self.single(words, out);
        }
        let mut r = self;
        let mut at: usize = 0;
        let mut reports: usize = 0;
        let mut dropped: usize = 0;
        let mut quick = self.begins(words);
        while at < words.len() {
            let q = r.swiftly(quick, &words[at..], &mut out[5 * reports..]);
            at += q.taken;
            reports += q.reports;
            dropped += q.dropped;
            let t = q
                .next
                .slowly(self.format, &words[at..], &mut out[5 * reports..]);
            if t.taken == 0 {
                return reading(t.refusal, q.next, at, reports, dropped);
            }
            r = t.next;
            at += t.taken;
            reports += t.reports;
            dropped += t.dropped;
            quick = true;
        }
        reading(None, r, at, reports, dropped)
    }
}
