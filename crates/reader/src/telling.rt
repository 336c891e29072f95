// The answers to the words of a line, told one after the other in a lent slice.
ghost use Rattle.std.specs.Prelude.{◌≡◌, true};
ghost use Rattle.fold.specs.Calls.{line};
ghost use Rattle.reader.specs.Good.{good};
ghost use Rattle.reader.specs.Telling.{answers_by, told, tells_line, places_of, front_of};

use crate::letters::by_letter;
use crate::line::put;
use crate::{Answer, Answers, Reader};
use wire::Refusal;

// What is given back for the words taken so far.
#[inline(always)]
pub(crate) fn so_far(
    refusal: Option<Refusal>,
    next: Reader,
    taken: usize,
    written: usize,
) -> Answers
    ensures { result ≡ record { refusal = refusal; next = next; taken = taken; written = written } }
{
    Answers {
        refusal,
        next,
        taken,
        written,
    }
}

// The numbers of an answer to the front of a slice, and how many: none where they have no room.
#[inline(always)]
fn tell(answer: Answer, out: &mut [i16]) -> usize
    ensures { (result ≡ places_of answer out.old) × (out.new ≡ front_of answer out.old) }
{
    match answer {
        Answer::Nothing => {
            if out.len() < 1 {
                return 0;
            }
            out[0] = 0;
            1
        }
        Answer::Dropped(k) => {
            if out.len() < 1 {
                return 0;
            }
            out[0] = k as i16;
            1
        }
        Answer::Report(report) => {
            if out.len() < 6 {
                return 0;
            }
            out[0] = -1;
            put(&mut out[1..], report);
            6
        }
    }
}

impl Reader {
    // Word after word, each answer behind the one before it.
    #[inline(always)]
    fn tells(self, letter: u8, words: &[u16], out: &mut [i16]) -> Answers
        requires { (letter ≡ self.format) × (good self ≡ true) }
        ensures { told (answers_by result) out.new ≡ line tells_line self words.now out.old }
    {
        let mut r = self;
        let mut used: usize = 0;
        for (at, word) in words.iter().enumerate() {
            let step = match r.word(letter, *word) {
                Ok(step) => step,
                Err(refusal) => return so_far(Some(refusal), r, at, used),
            };
            let n = tell(step.answer, &mut out[used..]);
            if n == 0 {
                return so_far(None, r, at, used);
            }
            r = step.next;
            used += n;
        }
        so_far(None, r, words.len(), used)
    }

    // The same, each letter with code of its own.
    #[inline(always)]
    pub(crate) fn told(self, words: &[u16], out: &mut [i16]) -> Answers
        requires { good self ≡ true }
        ensures { told (answers_by result) out.new ≡ line tells_line self words.now out.old }
    {
        by_letter!(self.format, letter => self.tells(letter, words, out))
    }
}
