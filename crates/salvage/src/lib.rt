// Salvage of a scarred log: the separate runs of neighbouring bytes, each a valid report, that leave out the fewest bytes.
#![tactic(auto)]

ghost use Rattle.std.specs.Prelude.{◌≡◌, cond, ◌<◌, ◌≤◌, length};
ghost use Rattle.frames.specs.Words.{is_byte, line_words};
ghost use Rattle.wire.specs.Line.{size_by};
ghost use Rattle.wire.specs.Refusals.{number_in};
ghost use Rattle.salvage.specs.Picking.{starts_by, fits_word, refusal_of, whole, picking};
ghost use Rattle.salvage.specs.Promises.{StartsPromise, PickPromise};

use wire::{Refusal, SILENCE};

// The most words of a log.
pub const MOST: usize = 4096;

// What is told of the runs picked, as C has it: the number of the refusal, 0 for success; the words taken; the runs; and the bytes left out of the words taken.
#[repr(C)]
#[derive(Clone, Copy, Drop)]
pub struct Picked {
    pub refusal: u8,
    pub taken: usize,
    pub runs: usize,
    pub left: usize,
}

fn told(refusal: u8, taken: usize, runs: usize, left: usize) -> Picked
    ensures { result ≡ record { refusal = refusal; taken = taken; runs = runs; left = left } }
{
    Picked {
        refusal,
        taken,
        runs,
        left,
    }
}

// Whether a word is a byte, and no 256 or 257.
fn is_byte(word: u16) -> bool
    ensures { result ≡ is_byte word }
{
    word <= 255
}

// Whether a word is a byte, valid at a place of a report.
fn fits_word(letter: u8, place: u8, word: u16) -> bool
    ensures { result ≡ fits_word letter place word }
{
    is_byte(word) && wire::fits(letter, place, word as u8)
}

// 1 for a byte, 0 for a 256 or 257.
fn byte(word: u16) -> usize
    ensures { result ≡ cond (is_byte word) 1 0 }
{
    usize::from(is_byte(word))
}

// Whether a run starts with the first of these words, by letter and size.
fn run_starts(letter: u8, size: usize, words: &[u16]) -> bool
    requires { (size ≡ size_by letter) × (0 < size) }
    ensures { result ≡ starts_by letter words.now }
{
    if words.len() < size {
        return false;
    }
    for (place, word) in words[..size].iter().enumerate() {
        if !fits_word(letter, place as u8, *word) {
            return false;
        }
    }
    true
}

// Whether a run starts with the first of these words: as many neighbouring bytes as a report has, and they are a valid one.
pub fn starts(letter: u8, words: &[u16]) -> bool
    ensures { StartsPromise letter words.now result }
{
    let size = wire::size(letter);
    size != 0 && run_starts(letter, size, words)
}

// Whether none of the words is above 257. None is a reason to stop early, so that many are compared at a time.
fn line_words(words: &[u16]) -> bool
    ensures { result ≡ line_words words.now }
{
    let mut ok = true;
    for word in words {
        ok &= *word <= SILENCE;
    }
    ok
}

// Whether runs may be picked from a log, or why it is refused.
#[tactic(auto, unfolding(crate::specs::Picking::refusal_of))]
fn admitted(letter: u8, words: &[u16]) -> Result<(), Refusal>
    ensures { number_in result ≡ refusal_of letter words.now }
{
    if !wire::known(letter) {
        return Err(Refusal::NoSuchLetter);
    }
    if wire::marked(letter) {
        return Err(Refusal::MarkedFormat);
    }
    if words.len() > MOST {
        return Err(Refusal::TooManyWords);
    }
    if !line_words(words) {
        return Err(Refusal::BadWord);
    }
    Ok(())
}

// From left to right, each run that starts where none before it reaches, as long as there is a place for it. A step is a
// run or a word, which no `for` takes.
fn pick_runs(letter: u8, size: usize, words: &[u16], places: &mut [u16]) -> Picked
    requires { (size ≡ size_by letter) × (0 < size) × (length words.now ≤ 4096) }
    ensures { whole result places.new ≡ picking letter words.now places.old }
{
    let mut at = 0;
    let mut runs = 0;
    let mut left = 0;
    while at < words.len() {
        if run_starts(letter, size, &words[at..]) {
            if runs >= places.len() {
                return told(0, at, runs, left);
            }
            places[runs] = at as u16;
            runs += 1;
            at += size;
        } else {
            left += byte(words[at]);
            at += 1;
        }
    }
    told(0, at, runs, left)
}

// The starting places of the runs that leave out the fewest bytes, to a lent slice. It stops before a run that has no place there. Each unmarked
// letter has a loop of its own; no other comes so far.
pub fn pick(letter: u8, words: &[u16], places: &mut [u16]) -> Picked
    ensures { PickPromise letter words.now places.old result places.new }
{
    if let Err(refusal) = admitted(letter, words) {
        return told(refusal.number(), 0, 0, 0);
    }
    match letter {
        b'U' => pick_runs(b'U', 5, words, places),
        b'T' => pick_runs(b'T', 3, words, places),
        b'W' => pick_runs(b'W', 5, words, places),
        _ => told(Refusal::NoSuchLetter.number(), 0, 0, 0),
    }
}
