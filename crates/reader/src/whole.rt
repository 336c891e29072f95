// Whole reports at the front of a line, and the silences between them: the quick way, proved to be the rule (rules.rt).
// The reader is ready. A word that is a byte, and fits the place that is next, is kept by the rules; the last of a report
// gives it. The tests and the report are those of the rules.
ghost use Rattle.std.specs.Prelude.{◌≡◌, ◌*◌, ◌<◌, ◌≤◌, length};
ghost use Rattle.wire.specs.Line.{size_by};
ghost use Rattle.reader.specs.State.{ready};
ghost use Rattle.reader.specs.Parts.{Stands};
ghost use Rattle.reader.specs.Whole.{brings, fits_word, whole_by, bytes_at};

use crate::letters::by_letter;
use crate::line::put;
use crate::rules::entered;
use wire::SILENCE;

// The words passed, and their reports.
#[derive(Clone, Copy, Drop)]
pub(crate) struct Run {
    pub taken: usize,
    pub reports: usize,
}

// The byte of a word, as it enters.
#[inline(always)]
fn byte_of(letter: u8, word: u16) -> u8
    ensures { result ≡ brings letter word }
{
    entered(letter, (word % 256) as u8)
}

// Whether a word is a byte that fits a place.
#[inline(always)]
fn fits(letter: u8, place: u8, word: u16) -> bool
    ensures { result ≡ fits_word letter place word }
{
    (word <= 255) & wire::fits(letter, place, byte_of(letter, word))
}

// Whether a whole report stands at the front of words.
#[inline(always)]
pub(crate) fn whole(letter: u8, words: &[u16]) -> bool
    requires { (0 < size_by letter) × (size_by letter ≤ length words.now) }
    ensures { result ≡ whole_by letter (size_by letter) words.now }
{
    if !fits(letter, 0, words[0]) {
        return false;
    }
    let two = fits(letter, 1, words[1]) & fits(letter, 2, words[2]);
    if wire::size(letter) == 3 {
        return two;
    }
    two & fits(letter, 3, words[3]) & fits(letter, 4, words[4])
}

// Its bytes, and 0 in the places behind them.
#[inline(always)]
fn front(letter: u8, words: &[u16]) -> [u8; 5]
    requires { (0 < size_by letter) × (size_by letter ≤ length words.now) }
    ensures { result ≡ bytes_at letter (size_by letter) words.now }
{
    let a = byte_of(letter, words[0]);
    let b = byte_of(letter, words[1]);
    let c = byte_of(letter, words[2]);
    if wire::size(letter) == 3 {
        return [a, b, c, 0, 0];
    }
    [
        a,
        b,
        c,
        byte_of(letter, words[3]),
        byte_of(letter, words[4]),
    ]
}

// The whole reports at the front, up to a word that begins none and is no silence, up to two silences, or up to the last that has room.
// The loop moves on by a report or by a silence. It counts places, since to count reports cost an instruction more for each.
#[inline(always)]
fn runs(letter: u8, words: &[u16], out: &mut [i16]) -> Run
    requires { 0 < size_by letter }
    ensures { Stands (ready letter) words.now out.old (ready letter) result.taken (5 * result.reports) result.reports 0 out.new }
{
    let size = wire::size(letter);
    let mut taken: usize = 0;
    let mut used: usize = 0;
    while taken + size <= words.len() {
        if used + 5 > out.len() {
            break;
        }
        let rest = &words[taken..];
        if whole(letter, rest) {
            let report = wire::report_of(letter, front(letter, rest));
            put(&mut out[used..], report);
            taken += size;
            used += 5;
        } else {
            if (rest[0] != SILENCE) | (rest[1] == SILENCE) {
                break;
            }
            taken += 1;
        }
    }
    Run {
        taken,
        reports: used / 5,
    }
}

// The same, each letter with code of its own.
#[inline(always)]
pub(crate) fn passed(letter: u8, words: &[u16], out: &mut [i16]) -> Run
    requires { 0 < size_by letter }
    ensures { Stands (ready letter) words.now out.old (ready letter) result.taken (5 * result.reports) result.reports 0 out.new }
{
    by_letter!(letter, letter => runs(letter, words, out))
}
