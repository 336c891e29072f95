// mbox: a box to try. Events on standard input, the recording of what the box puts on the line on standard output.
#![tactic(auto)]

ghost use Rattle.std.specs.Prelude.{◌≡◌, [], ◌-◌, ◌≤◌, ◌<◌, length, is_ok};
ghost use Rattle.std.proofs.Common.{le_refl, refl};
ghost use Rattle.shell.proofs.Laws.{few_left};
ghost use Rattle.shell.specs.Outside.{Trace};
ghost use Rattle.shell.specs.Standing.{Ends};
ghost use Rattle.driver.specs.Promises.{enough};
ghost use Rattle.driver.proofs.Kept.{Kept};
ghost use Rattle.driver.proofs.Whole.{all_of};
ghost use Rattle.driver.proofs.Nearer.{passed, most_bytes};
ghost use Rattle.mbox.specs.Program.{mbox};

use driver::Driver;
use shell::{Failure, Filter, Step, System};

// More calls than the end has: with nine places each pays a slot that is owed, or ends the last line or the recording.
const CALLS: u32 = 4_000_000;

// How far the events are driven.
#[derive(Clone, Copy, Drop)]
struct Driving {
    driver: Driver,
}

impl Filter for Driving {
    ghost program = { mbox };

    ghost rest = { λ s. all_of s.driver };

    ghost reads = { λ s. Kept s.driver };

    ghost ends = { λ s. Kept s.driver };

    ghost left = { λ s. most_bytes - passed s.driver };

    ghost room = { λ _. enough };

    ghost may_end = { λ s kept. kept };

    ghost few = { λ s. few_left most_bytes (passed s.driver) refl };

    ghost room_grows = { λ n m fewer. le_refl enough };

    // A call may stop for room, and is followed by another until all of the bytes are taken and no slot is owed. With nine places each takes a byte or a slot,
    // where the driver came of a fresh one; one that takes neither is not made again. Nothing is read once the recording has ended.
    fn feed(
        self,
        system: &mut System,
        bytes: &[u8],
        out: &mut [u8],
    ) -> Result<Step<Driving>, Failure> {
        let mut here = self.driver;
        let mut rest = bytes;
        while !rest.is_empty() || here.owed != 0 {
            let driven = here.feed(rest, out);
            if driven.taken == 0 && driven.next.owed >= here.owed {
                return Err(Failure);
            }
            system.show(b"mbox: standard output", &out[..driven.written])?;
            rest = &rest[driven.taken..];
            here = driven.next;
        }
        let next = Driving { driver: here };
        Ok(if here.ended {
            Step::Over(next)
        } else {
            Step::More(next)
        })
    }

    // The end of the input, which only a recording has whose reads and writes all went well; its lines too may stop for room.
    fn finish(self, system: &mut System, out: &mut [u8]) -> Result<(), Failure> {
        let mut here = self.driver;
        for _ in 0..CALLS {
            let over = here.ended;
            if over {
                return Ok(());
            }
            let last = here.finish(out);
            system.show(b"mbox: standard output", &out[..last.written])?;
            here = last.next;
        }
        Err(Failure)
    }
}

// WHAT IS HANDED OUT IS THE RECORDING OF THE SCRIPT.
fn whole(system: &mut System, input: &mut [u8], out: &mut [u8]) -> Result<(), Failure>
    requires trace { Trace system.old.turn [] [] [] }
    requires enough_in_bounds { (enough ≤ length out.old) × (0 < length input.old) }
    ensures { Ends mbox system.new.turn (is_ok result) }
{
    let driving = Driving {
        driver: Driver::fresh(),
    };
    shell::run(driving, system, b"mbox: standard input", input, out)
}

fn main(rt: HostRuntime) {
    let mut system = System::of(rt.stdin(), rt.stdout(), rt.stderr());
    let mut input = [0u8; 4096];
    let mut out = [0u8; 65536];
    let _ = whole(&mut system, &mut input, &mut out);
}
