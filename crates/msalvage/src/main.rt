// msalvage: the salvage of standard input, to standard output.
#![tactic(auto)]

ghost use Rattle.std.specs.Prelude.{◌≤◌, ◌≡◌, [], length, is_ok};
ghost use Rattle.shell.specs.Outside.{Trace};
ghost use Rattle.shell.specs.Standing.{Ends};
ghost use Rattle.salvaged.specs.Whole.{decides, enough};
ghost use Rattle.msalvage.specs.Program.{msalvage};
ghost use Rattle.msalvage.specs.Blocks.{Filled};

use shell::{Failure, System};

// The input, read block behind block until it is over or the buffer is full: how many bytes are there.
fn filled(system: &mut System, input: &mut [u8]) -> Result<usize, Failure>
    requires trace { Trace system.old.turn [] [] [] }
    requires decides_in_bounds { decides ≤ length input.old }
    ensures { Filled system.new.turn input.new result }
{
    // The slice does not shrink: `behind` reads behind the bytes that are held.
    let mut count = 0;
    while count < input.len() {
        let n = system.behind(b"msalvage: standard input", input, count)?;
        if n == 0 {
            return Ok(count);
        }
        count += n;
    }
    Ok(count)
}

// All of it: WHAT IS HANDED OUT IS THE SALVAGE OF THE RECORDING. Nothing is written before all is read that matters, and nothing where a read failed.
fn whole(system: &mut System, input: &mut [u8], out: &mut [u8]) -> Result<(), Failure>
    requires trace { Trace system.old.turn [] [] [] }
    requires decides_in_bounds { (decides ≤ length input.old) × (enough ≤ length out.old) }
    ensures { Ends msalvage system.new.turn (is_ok result) }
{
    let count = filled(system, input)?;
    let told = salvaged::list(&input[..count], out);
    system.show(b"msalvage: standard output", &out[..told.written])
}

fn main(rt: HostRuntime) {
    let mut system = System::of(rt.stdin(), rt.stdout(), rt.stderr());
    let mut input = [0u8; 24588];
    let mut out = [0u8; 163920];
    let _ = whole(&mut system, &mut input, &mut out);
}
