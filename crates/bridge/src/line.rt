// Over many words: a line, and the bytes of its V reports to a lent slice.
ghost use Rattle.std.specs.Prelude.{◌≡◌, ℕ, true, ◌≤◌, List, ◌∷◌};
ghost use Rattle.bridge.specs.Good.{good};
ghost use Rattle.fold.specs.Calls.{line};
ghost use Rattle.bridge.specs.Line.{converted_in, whole, converts};
ghost use Rattle.bridge.specs.Parts.{Reported, Begins};

use crate::splitting::put;
use crate::{Bridge, Converted};
use reader::{Answer, Reader};
use wire::{Refusal, Report};

// A line of which words, reports that came in, V reports and dropped bytes are counted so far.
pub(crate) fn converted(
    refusal: Option<Refusal>,
    next: Bridge,
    taken: usize,
    reports: usize,
    sent: usize,
    dropped: usize,
) -> Converted
    ensures { result ≡ record { refusal = refusal; next = next; taken = taken; reports = reports; sent = sent; dropped = dropped } }
{
    Converted {
        refusal,
        next,
        taken,
        reports,
        sent,
        dropped,
    }
}

impl Bridge {
    // The same bridge with another reader.
    fn with(self, reader: Reader) -> Bridge
        ensures { result ≡ record { reader = reader; past = self.past } }
    {
        Bridge {
            reader,
            past: self.past,
        }
    }

    // A report that came in: all its V reports to the front of the slice, or, where they have no room, none.
    fn report(self, next: Reader, report: Report, out: &mut [u8]) -> Converted
        ensures reported { Reported self next report out.old (converted_in result) out.new }
        ensures one { result.taken ≤ 1 }
    {
        let m = self.past.moved(self.reader.format, report);
        let n = m.count();
        if out.len() / 3 < n {
            return converted(None, self, 0, 0, 0, 0);
        }
        put(report.buttons, n, m, out);
        let b = Bridge {
            reader: next,
            past: self.past.noted(self.reader.format, report),
        };
        converted(None, b, 1, 1, n, 0)
    }

    // One word, and its V reports to the front of the places that are left. Where it is refused or they have no room, it isn't taken.
    fn first(self, word: u16, out: &mut [u8]) -> Converted
        requires { good self ≡ true }
        ensures begins { (words : List ℕ) → Begins self (word ∷ words) out.old (converted_in result) out.new }
        ensures one { result.taken ≤ 1 }
    {
        let step = match self.reader.step(word) {
            Ok(step) => step,
            Err(refusal) => return converted(Some(refusal), self, 0, 0, 0, 0),
        };
        match step.answer {
            Answer::Nothing => converted(None, self.with(step.next), 1, 0, 0, 0),
            Answer::Dropped(k) => converted(None, self.with(step.next), 1, 0, 0, k as usize),
            Answer::Report(report) => self.report(step.next, report, out),
        }
    }

    // The words of a line, one after the other.
    pub(crate) fn line(self, words: &[u16], out: &mut [u8]) -> Converted
        requires { good self ≡ true }
        ensures { whole (converted_in result) out.new ≡ line converts self words.now out.old }
    {
        let mut b = self;
        let mut reports = 0;
        let mut sent = 0;
        let mut dropped = 0;
        for (at, word) in words.iter().enumerate() {
            let t = b.first(*word, &mut out[3 * sent..]);
            if t.taken == 0 {
                return converted(t.refusal, b, at, reports, sent, dropped);
            }
            b = t.next;
            reports += t.reports;
            sent += t.sent;
            dropped += t.dropped;
        }
        converted(None, b, words.len(), reports, sent, dropped)
    }
}
