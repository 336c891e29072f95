// Over many words: a line, and the numbers of its reports to a lent slice.
ghost use Rattle.std.specs.Prelude.{◌≡◌, ℕ, true, ◌≤◌, List, [], ◌∷◌, ◌++◌, cond, leb, pos, length, drop};
ghost use Rattle.vsxxx.specs.Reports.{movement, self_test, six_of};
ghost use Rattle.fold.specs.Calls.{line};
ghost use Rattle.puckreader.specs.Line.{reading_in, whole, reads_line, Begins};
ghost use Rattle.puckreader.specs.Good.{good};

use crate::{PuckAnswer, PuckReader, PuckReading};
use vsxxx::SelfTest;
use wire::{Refusal, Report};

// An error of so much or more is fatal.
const FATAL: u8 = 0x20;

// Six numbers to the front of a slice.
fn put(out: &mut [i16], kind: i16, a: i16, b: i16, c: i16, d: i16, e: i16)
    requires { 6 ≤ length out.old }
    ensures { out.new ≡ (kind ∷ a ∷ b ∷ c ∷ d ∷ e ∷ []) ++ drop 6 out.old }
{
    out[0] = kind;
    out[1] = a;
    out[2] = b;
    out[3] = c;
    out[4] = d;
    out[5] = e;
}

// The six numbers of a movement.
fn put_movement(out: &mut [i16], r: Report)
    requires { 6 ≤ length out.old }
    ensures { out.new ≡ six_of (movement r) ++ drop 6 out.old }
{
    put(out, 0, r.buttons as i16, r.x1, r.y1, r.x2, r.y2);
}

// 1 for a self-test, 2 if its error is fatal.
fn kind_of(error: u8) -> i16
    ensures { result ≡ pos (cond (leb 0x20 error) 2 1) }
{
    if FATAL <= error { 2 } else { 1 }
}

// The six numbers of a self-test.
fn put_test(out: &mut [i16], t: SelfTest)
    requires { 6 ≤ length out.old }
    ensures { out.new ≡ six_of (self_test t) ++ drop 6 out.old }
{
    let kind = kind_of(t.error);
    put(
        out,
        kind,
        t.revision as i16,
        t.maker as i16,
        t.device as i16,
        t.error as i16,
        t.buttons as i16,
    );
}

// A line of which words, reports and bytes are counted so far.
pub(crate) fn reading(
    refusal: Option<Refusal>,
    next: PuckReader,
    taken: usize,
    reports: usize,
    dropped: usize,
) -> PuckReading
    ensures { result ≡ record { refusal = refusal; next = next; taken = taken; reports = reports; dropped = dropped } }
{
    PuckReading {
        refusal,
        next,
        taken,
        reports,
        dropped,
    }
}

impl PuckReader {
    // One word, and its report to the front of the places that are left. Where it is refused or its report has no room, it isn't taken.
    fn first(self, word: u16, out: &mut [i16]) -> PuckReading
        requires { good self ≡ true }
        ensures begins { (words : List ℕ) → Begins self (word ∷ words) out.old (reading_in result) out.new }
        ensures one { result.taken ≤ 1 }
    {
        let step = match self.word(word) {
            Ok(step) => step,
            Err(refusal) => return reading(Some(refusal), self, 0, 0, 0),
        };
        match step.answer {
            PuckAnswer::Nothing => reading(None, step.next, 1, 0, 0),
            PuckAnswer::Dropped(k) => reading(None, step.next, 1, 0, k as usize),
            PuckAnswer::Movement(r) => {
                if out.len() < 6 {
                    return reading(None, self, 0, 0, 0);
                }
                put_movement(out, r);
                reading(None, step.next, 1, 1, 0)
            }
            PuckAnswer::Test(t) => {
                if out.len() < 6 {
                    return reading(None, self, 0, 0, 0);
                }
                put_test(out, t);
                reading(None, step.next, 1, 1, 0)
            }
        }
    }

    // The words of a line, one by one, each with the reader that came back and the places that are left.
    pub(crate) fn line(self, words: &[u16], out: &mut [i16]) -> PuckReading
        requires { good self ≡ true }
        ensures { whole (reading_in result) out.new ≡ line reads_line self words.now out.old }
    {
        let mut r = self;
        let mut used = 0;
        let mut reports = 0;
        let mut dropped = 0;
        for (at, word) in words.iter().enumerate() {
            let t = r.first(*word, &mut out[used..]);
            if t.taken == 0 {
                return reading(t.refusal, r, at, reports, dropped);
            }
            r = t.next;
            used += 6 * t.reports;
            reports += t.reports;
            dropped += t.dropped;
        }
        reading(None, r, words.len(), reports, dropped)
    }
}
