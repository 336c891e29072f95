// What one word does to a good reader: the rule. whole.rt is the quick way.
ghost use Rattle.std.specs.Prelude.{◌≡◌, true, false, ◌<◌};
ghost use Rattle.wire.specs.Line.{size_by};
ghost use Rattle.reader.specs.State.{no_bytes, given, read_in};
ghost use Rattle.reader.specs.Good.{good};
ghost use Rattle.reader.specs.Rules.{entered, answered, dropping, fitting, starting, keep, start, lose, byte_of, word_of};

use crate::letters::by_letter;
use crate::state::no_bytes;
use crate::{Answer, Reader, Step};
use wire::{BREAK, FORMAT_V, Refusal, SILENCE};

// Every byte enters the reader through this, by the letter of the format: in V without bit 7.
#[inline(always)]
pub(crate) fn entered(letter: u8, byte: u8) -> u8
    ensures { result ≡ entered letter byte }
{
    let clears = letter == FORMAT_V;
    if clears {
        return byte % 128;
    }
    byte
}

// Where none is dropped the answer is nothing.
#[inline(always)]
fn dropping(k: u8) -> Answer
    ensures { result ≡ dropping k }
{
    if k == 0 {
        Answer::Nothing
    } else {
        Answer::Dropped(k)
    }
}

impl Reader {
    // Whether a byte fits the place that is next.
    #[inline(always)]
    fn fits(self, letter: u8, byte: u8) -> bool
        requires { letter ≡ self.format }
        ensures { result ≡ fitting self byte }
    {
        wire::fits(letter, self.count, byte)
    }

    // A byte that fits its place is kept; the last gives the report.
    #[inline(always)]
    fn keep(mut self, letter: u8, byte: u8) -> Step
        requires { (letter ≡ self.format) × (self.count < size_by letter) × (self.awaiting ≡ false) }
        ensures { given result ≡ keep self byte }
    {
        let at = self.count as usize;
        self.kept[at] = byte;
        if at + 1 == wire::size(letter) {
            let report = wire::report_of(letter, self.kept);
            return Step {
                next: no_bytes(letter, false),
                answer: Answer::Report(report),
            };
        }
        self.count += 1;
        Step {
            next: self,
            answer: Answer::Nothing,
        }
    }

    // Whether a byte is a valid first byte of a marked format.
    #[inline(always)]
    fn starts(self, letter: u8, byte: u8) -> bool
        requires { letter ≡ self.format }
        ensures { result ≡ starting self byte }
    {
        wire::marked(letter) & wire::fits(letter, 0, byte)
    }

    // Such a byte starts a report anywhere; the kept bytes are dropped.
    #[inline(always)]
    fn start(self, letter: u8, byte: u8) -> Step
        requires { letter ≡ self.format }
        ensures { given result ≡ start self byte }
    {
        let answer = dropping(self.count);
        Step {
            next: Reader {
                format: letter,
                kept: [byte, 0, 0, 0, 0],
                count: 1,
                awaiting: false,
            },
            answer,
        }
    }

    // A byte that no rule takes is dropped with the kept; U, T, W then await silence.
    #[inline(always)]
    fn lose(self, letter: u8) -> Step
        requires { (letter ≡ self.format) × (self.count < 5) }
        ensures { given result ≡ lose self }
    {
        Step {
            next: no_bytes(letter, !wire::marked(letter)),
            answer: Answer::Dropped(self.count + 1),
        }
    }

    // A byte. While a silence is awaited, each is dropped alone.
    #[inline(always)]
    fn byte(self, letter: u8, byte: u8) -> Step
        requires { (letter ≡ self.format) × (self.count < size_by letter) }
        ensures { given result ≡ byte_of self byte }
    {
        if self.awaiting {
            return Step {
                next: self,
                answer: Answer::Dropped(1),
            };
        }
        if self.fits(letter, byte) {
            return self.keep(letter, byte);
        }
        if self.starts(letter, byte) {
            return self.start(letter, byte);
        }
        self.lose(letter)
    }

    // A break or a silence drops the kept; U, T, W then await silence, or are ready.
    #[inline(always)]
    fn pause(self, letter: u8, awaiting: bool) -> Step
        requires { letter ≡ self.format }
        ensures { given result ≡ answered (no_bytes self.format awaiting) (dropping self.count) }
    {
        Step {
            next: no_bytes(letter, awaiting),
            answer: dropping(self.count),
        }
    }

    // A word to a good reader: a byte, a break, a silence; any other is refused.
    #[inline(always)]
    pub(crate) fn word(self, letter: u8, word: u16) -> Result<Step, Refusal>
        requires { (letter ≡ self.format) × (good self ≡ true) }
        ensures { read_in self result ≡ word_of self word }
    {
        if word <= 255 {
            let byte = entered(letter, word as u8);
            return Ok(self.byte(letter, byte));
        }
        match word {
            BREAK => Ok(self.pause(letter, !wire::marked(letter))),
            SILENCE => Ok(self.pause(letter, false)),
            _ => Err(Refusal::BadWord),
        }
    }

    // The same, each letter with code of its own.
    #[inline(always)]
    pub(crate) fn heard(self, word: u16) -> Result<Step, Refusal>
        requires { good self ≡ true }
        ensures { read_in self result ≡ word_of self word }
    {
        by_letter!(self.format, letter => self.word(letter, word))
    }
}
