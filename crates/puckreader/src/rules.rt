// What one word does to a good reader.
ghost use Rattle.std.specs.Prelude.{◌≡◌, true, [], ◌∷◌, ◌++◌};
ghost use Rattle.frames.specs.Frame.{drops, keep, act, start, bad, break};
ghost use Rattle.frames.specs.Words as words;
ghost use Rattle.vsxxx.specs.SelfTests.{test_of};
ghost use Rattle.vsxxx.specs.Reports.{puck_frame, fits_puck};
ghost use Rattle.puckreader.specs.State.{reader, kept_in, told};
ghost use Rattle.puckreader.specs.Rules.{taken, read_in, answered, word_of};
ghost use Rattle.puckreader.specs.Good.{good};

use crate::good::{fits_behind, fits_start, is_test};
use crate::{PuckAnswer, PuckReader, PuckStep};
use vsxxx::SelfTest;
use wire::{BREAK, FORMAT_S, Refusal, SILENCE};

// A reader with these bytes in its places, of which so many are kept.
pub(crate) fn holding(count: u8, a: u8, b: u8, c: u8) -> PuckReader
    ensures { result ≡ reader (a ∷ b ∷ c ∷ []) count }
{
    PuckReader {
        kept: [a, b, c],
        count,
    }
}

// What a word that is not refused gives.
fn answering(next: PuckReader, answer: PuckAnswer) -> PuckStep
    ensures { result ≡ record { next = next; answer = answer } }
{
    PuckStep { next, answer }
}

// Where none is dropped the answer is nothing.
fn dropping(k: u8) -> PuckAnswer
    ensures { result ≡ told (drops k) }
{
    if k == 0 {
        PuckAnswer::Nothing
    } else {
        PuckAnswer::Dropped(k)
    }
}

// The self-test that four bytes stand for.
fn test_of(a: u8, b: u8, c: u8, d: u8) -> SelfTest
    ensures { result ≡ test_of (a ∷ b ∷ c ∷ d ∷ []) }
{
    SelfTest {
        revision: a % 16,
        maker: b / 16 % 8,
        device: b % 16,
        error: c % 128,
        buttons: d % 8,
    }
}

impl PuckReader {
    // Whether a byte fits the place that is next.
    fn fits(self, byte: u8) -> bool
        requires { good self ≡ true }
        ensures { result ≡ fits_puck (kept_in self) byte }
    {
        let kept = self.kept;
        let count = self.count;
        if count == 0 {
            return fits_start(byte);
        }
        fits_behind(kept[0], count, byte)
    }

    // A byte that fits its place is kept; the last gives the report.
    fn keep(self, byte: u8) -> PuckStep
        requires { good self ≡ true }
        ensures { taken result ≡ answered (keep puck_frame (kept_in self ++ (byte ∷ []))) }
    {
        let kept = self.kept;
        let count = self.count;
        if count == 0 {
            return answering(holding(1, byte, 0, 0), PuckAnswer::Nothing);
        }
        if count == 1 {
            return answering(holding(2, kept[0], byte, 0), PuckAnswer::Nothing);
        }
        if count == 3 {
            let test = test_of(kept[0], kept[1], kept[2], byte);
            return answering(holding(0, 0, 0, 0), PuckAnswer::Test(test));
        }
        if is_test(kept[0]) {
            return answering(holding(3, kept[0], kept[1], byte), PuckAnswer::Nothing);
        }
        let report = wire::report_of(FORMAT_S, [kept[0], kept[1], byte, 0, 0]);
        answering(holding(0, 0, 0, 0), PuckAnswer::Movement(report))
    }

    // A first byte starts a report anywhere; the kept bytes are dropped.
    fn start(self, byte: u8) -> PuckStep
        requires { good self ≡ true }
        ensures { taken result ≡ answered (act puck_frame start (kept_in self) byte) }
    {
        answering(holding(1, byte, 0, 0), dropping(self.count))
    }

    // A byte that no rule takes is dropped with the kept.
    fn lose(self, byte: u8) -> PuckStep
        requires { good self ≡ true }
        ensures { taken result ≡ answered (act puck_frame bad (kept_in self) byte) }
    {
        answering(holding(0, 0, 0, 0), PuckAnswer::Dropped(self.count + 1))
    }

    // A break or a silence drops the kept.
    fn pause(self) -> PuckStep
        requires { good self ≡ true }
        ensures { taken result ≡ answered (act puck_frame break (kept_in self) words.break) }
    {
        answering(holding(0, 0, 0, 0), dropping(self.count))
    }

    // A byte.
    fn byte(self, byte: u8) -> PuckStep
        requires { good self ≡ true }
        ensures { taken result ≡ word_of self byte }
    {
        if self.fits(byte) {
            return self.keep(byte);
        }
        if fits_start(byte) {
            return self.start(byte);
        }
        self.lose(byte)
    }

    // A word: a byte, a break, a silence; any other is refused with 4.
    pub(crate) fn word(self, word: u16) -> Result<PuckStep, Refusal>
        requires { good self ≡ true }
        ensures { read_in self result ≡ word_of self word }
    {
        if SILENCE < word {
            return Err(Refusal::BadWord);
        }
        if BREAK <= word {
            return Ok(self.pause());
        }
        Ok(self.byte(word as u8))
    }
}
