// mwidth: a listing on standard input, rewritten at the other width of line numbers to standard output; a line that is faulty, or whose number does not fit,
// is told on standard error.
#![tactic(auto)]

ghost use Rattle.std.specs.Prelude.{ℕ, ◌*◌, ◌≤◌, ◌<◌, ◌≡◌, true, [], length, take, is_ok};
ghost use Rattle.shell.specs.Outside.{Trace, Said};
ghost use Rattle.shell.specs.Standing.{Stands, Closes, Ends};
ghost use Rattle.readback.specs.Steps.{good};
ghost use Rattle.readback.specs.Pieces.{longest};
ghost use Rattle.readback.specs.Held.{Ready};
ghost use Rattle.mwidth.specs.Told.{tell_of, why_of};
ghost use Rattle.mwidth.specs.Program.{mwidth};
ghost use Rattle.mwidth.specs.Blocks.{rest, tells, at_end, Leaves};

use readback::Readback;
use shell::{Failure, System};
use text::Text;

// How far the listing is rewritten: the reader, and how many bytes of a line that is not whole yet are held.
#[derive(Clone, Copy, Drop)]
struct Place {
    reader: Readback,
    held: usize,
}

// What a block leaves: more is to be read, or the listing is over, or a line was refused.
#[derive(Clone, Copy, Drop)]
enum Next {
    More(Place),
    Over(Place),
    Refused { refusal: u8, line: u32 },
}

// What is held and what was read: its lines at the other width are written, and the rest is held. With forty places for each byte all lines are taken.
// The whole buffer comes with how much of it is filled, since what is not taken is moved to its front.
fn listed(
    system: &mut System,
    reader: Readback,
    all: usize,
    input: &mut [u8],
    out: &mut [u8],
) -> Result<Next, Failure>
    requires all_in_bounds { (all ≤ length input.old) × (40 * length input.old ≤ length out.old) × (good reader ≡ true) }
    requires stands { Stands mwidth system.old.turn (rest reader (take all input.old)) (tells reader (take all input.old)) }
    ensures leaves { (held : ℕ) → held < all → held ≤ longest → Leaves system.new.turn reader held result input.new }
{
    let told = reader.rewrite(&input[..all], out);
    let taken = told.taken;
    let left = all - taken;
    system.show(b"mwidth: standard output", &out[..told.written])?;
    if told.refusal != 0 {
        return Ok(Next::Refused {
            refusal: told.refusal,
            line: told.line,
        });
    }
    shell::keep(input, taken, left);
    Ok(Next::More(Place {
        reader: told.next,
        held: left,
    }))
}

// A block of the listing: the bytes that were held and what a read brings.
fn block(
    system: &mut System,
    place: Place,
    input: &mut [u8],
    out: &mut [u8],
) -> Result<Next, Failure>
    requires held_in_bounds { (place.held ≤ length input.old) × (40 * length input.old ≤ length out.old) × (longest < length input.old) }
    requires ready { Ready place.reader (take place.held input.old) }
    requires stands { Stands mwidth system.old.turn (rest place.reader (take place.held input.old)) (tells place.reader (take place.held input.old)) }
    ensures leaves { Leaves system.new.turn place.reader place.held result input.new }
{
    let count = system.behind(b"mwidth: standard input", input, place.held)?;
    if count == 0 {
        return Ok(Next::Over(place));
    }
    listed(system, place.reader, place.held + count, input, out)
}

// A line of the listing that was not rewritten, to standard error.
fn tell(system: &mut System, line: u32, why: &[u8]) -> Result<(), Failure>
    requires { length why.now ≤ 50 }
    ensures { Said system.old.turn system.new.turn (is_ok result) (tell_of line why.now) }
{
    let mut bytes = [0u8; 80];
    let number = Text::bytes_to(&mut bytes, 0, b"mwidth: line ");
    let behind = Text::decimal_to(&mut bytes, number, 1, line as i64);
    let n = Text::bytes_to(&mut bytes, behind, why);
    system.say(&bytes[..n])
}

// A line that was refused.
fn refused(system: &mut System, refusal: u8, line: u32) -> Result<(), Failure>
    requires { Closes mwidth system.old.turn [] (tell_of line (why_of refusal)) }
    ensures { Ends mwidth system.new.turn (is_ok result) }
{
    if refusal == 15 {
        return tell(system, line, b": its number does not fit the other width\n");
    }
    tell(system, line, b" is faulty\n")
}

// The listing is over: its end, or a line that is missing or not whole.
fn over(system: &mut System, place: Place) -> Result<(), Failure>
    requires { Closes mwidth system.old.turn [] (at_end place.reader place.held) }
    ensures { Ends mwidth system.new.turn (is_ok result) }
{
    let end = place.reader.finish(place.held);
    if end.refusal != 0 {
        return tell(system, end.line, b" is missing or not whole\n");
    }
    Ok(())
}

// WHAT IS HANDED OUT IS THE LISTING AT THE OTHER WIDTH, and what is told is the line that was not rewritten.
fn whole(system: &mut System, input: &mut [u8], out: &mut [u8]) -> Result<(), Failure>
    requires { (40 * length input.old ≤ length out.old) × (longest < length input.old) × Trace system.old.turn [] [] [] }
    ensures { Ends mwidth system.new.turn (is_ok result) }
{
    let mut place = Place {
        reader: Readback::fresh(),
        held: 0,
    };
    'every_block: loop {
        match block(system, place, input, out)? {
            Next::More(next) => place = next,
            Next::Over(last) => return over(system, last),
            Next::Refused { refusal, line } => return refused(system, refusal, line),
        }
    }
}

fn main(rt: HostRuntime) {
    let mut system = System::of(rt.stdin(), rt.stdout(), rt.stderr());
    // Fixed buffers: there is no heap.
    let mut input = [0u8; 4096];
    let mut out = [0u8; 163840];
    let _ = whole(&mut system, &mut input, &mut out);
}
