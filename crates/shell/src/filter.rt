// Programs that write, read by read, what they make of their input.
ghost use Rattle.std.specs.Prelude.{ℕ, ◌≤◌, ◌<◌, List, length, is_ok};
ghost use Rattle.shell.specs.Standing.{Program, Ends};
ghost use Rattle.shell.specs.Filters.{most_reads, Called, Fed, Last, Leaves, Closed};

use crate::{Failure, System};

// More reads than any of the programs makes.
const READS: u64 = 1_000_000_000_000_000;

// Where a program stands between reads: more is to be read, or nothing more.
#[derive(Clone, Copy, Drop)]
pub enum Step<S> {
    More(S),
    Over(S),
}

// What a program makes of its input, and how far it is.
pub trait Filter: Drop {
    // the program that it is
    ghost program: { Program };

    // what is still to be written of whatever follows
    ghost rest: { Self → List ℕ → List ℕ };

    // what holds of it while more is to be read, and where nothing more is
    ghost reads: { Self → Type 0 };

    ghost ends: { Self → Type 0 };

    // a number that falls with each read
    ghost left: { Self → ℕ };

    // how many places its slice has for so many bytes of a read; for the end, as many as for one
    ghost room: { ℕ → ℕ };

    // What a read brought, and what is made of it to standard output.
    fn feed(self, system: &mut System, bytes: &[u8], out: &mut [u8]) -> Result<Step<Self>, Failure>
        ensures { Fed program rest reads room bytes.now (length out.old) system.old.turn self → Leaves program rest reads ends left system.new.turn self result };

    // What is left to be written at the end.
    fn finish(self, system: &mut System, out: &mut [u8]) -> Result<(), Failure>
        ensures { Last program rest ends room (length out.old) system.old.turn self → Ends program system.new.turn (is_ok result) };

    // the input may end between any two reads
    ghost may_end: { (s : Self) → reads s → ends s };

    // no program makes so many reads
    ghost few: { (s : Self) → left s < most_reads };

    // fewer bytes need no more places
    ghost room_grows: { (n m : ℕ) → n ≤ m → room n ≤ room m };
}

// A read, and where it brought nothing the input is over.
fn block<F: Filter>(
    filter: F,
    system: &mut System,
    name: &[u8],
    input: &mut [u8],
    out: &mut [u8],
) -> Result<Step<F>, Failure>
    ensures { Called F.program F.rest F.reads F.room name.now (length input.old) (length out.old) system.old.turn filter → Leaves F.program F.rest F.reads F.ends F.left system.new.turn filter result }
{
    match system.more(name, input)? {
        0 => Ok(Step::Over(filter)),
        n => filter.feed(system, &input[..n], out),
    }
}

// All reads, one after the other, until the input is over or the filter wants no more.
fn blocks<F: Filter>(
    filter: F,
    system: &mut System,
    name: &[u8],
    input: &mut [u8],
    out: &mut [u8],
) -> Result<F, Failure>
    ensures { Called F.program F.rest F.reads F.room name.now (length input.old) (length out.old) system.old.turn filter → Closed F.program F.rest F.ends system.new.turn result }
{
    let mut here = filter;
    for _ in 0..READS {
        match block(here, system, name, input, out)? {
            Step::More(next) => here = next,
            Step::Over(last) => return Ok(last),
        }
    }
    Err(Failure)
}

// WHAT IS HANDED OUT IS WHAT THE PROGRAM IS TO WRITE OF ITS INPUT, where it is called as the program (`Called`): nothing is read once the filter wants no more.
pub fn run<F: Filter>(
    filter: F,
    system: &mut System,
    name: &[u8],
    input: &mut [u8],
    out: &mut [u8],
) -> Result<(), Failure>
    ensures { Called F.program F.rest F.reads F.room name.now (length input.old) (length out.old) system.old.turn filter → Ends F.program system.new.turn (is_ok result) }
{
    blocks(filter, system, name, input, out)?.finish(system, out)
}
