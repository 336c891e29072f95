// The salvage of a recording: its log is read (log), and what the log falls into is printed, line by line (lines, walk).
#![tactic(auto)]

ghost use Rattle.salvaged.specs.Promises.{ListPromise};

use listing::Item;

mod lines;
mod log;
mod walk;

// What is told: the bytes written, and whether every line had room.
#[derive(Clone, Copy, Drop)]
pub struct Salvaged {
    pub written: usize,
    pub whole: bool,
}

// The format heard, how many words, and what stands alone, if anything.
#[derive(Clone, Copy, Drop)]
pub(crate) struct Heard {
    pub letter: u8,
    pub count: usize,
    pub alone: Option<Item>,
}

// How far a log has been printed: the place, the bytes left out right before it, and what is told so far.
#[derive(Clone, Copy, Drop)]
pub(crate) struct Step {
    pub at: usize,
    pub left: usize,
    pub told: Salvaged,
}

// The salvage of an input, to a lent slice. It stops before a line that has no room.
pub fn list(input: &[u8], out: &mut [u8]) -> Salvaged
    ensures { ListPromise input.now out.old result out.new }
{
    let mut words = [0u16; 4096];
    let heard = log::read(input, &mut words);
    let n = heard.count;
    let alone = heard.alone;
    walk::print(heard.letter, alone, &words[..n], out)
}
