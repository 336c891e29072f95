// mlist: the listing of standard input, to standard output.
#![tactic(auto)]

ghost use Rattle.std.specs.Prelude.{ℕ, ◌≡◌, ◌*◌, ◌-◌, ◌≤◌, ◌<◌, true, [], length, is_ok};
ghost use Rattle.shell.specs.Outside.{Trace};
ghost use Rattle.shell.specs.Standing.{Ends};
ghost use Rattle.listing.specs.Scanning.{passed, most_bytes};
ghost use Rattle.listing.specs.Feeding.{good};
ghost use Rattle.listing.specs.Promises.{enough};
ghost use Rattle.listing.proofs.Whole.{all_of};
ghost use Rattle.mlist.specs.Program.{mlist};
ghost use Rattle.std.proofs.Common.{mul-le-mul_left, refl};
ghost use Rattle.shell.proofs.Laws.{few_left};

use listing::Lister;
use shell::{Failure, Filter, Step, System};

// How far the input is listed.
#[derive(Clone, Copy, Drop)]
struct Listing {
    lister: Lister,
}

impl Filter for Listing {
    ghost program = { mlist };

    ghost rest = { λ s. all_of s.lister };

    ghost reads = { λ s. good s.lister ≡ true };

    ghost ends = { λ s. good s.lister ≡ true };

    ghost left = { λ s. most_bytes - passed s.lister.scanner };

    // with forty places for each of them all bytes are taken
    ghost room = { λ n. enough * n };

    ghost may_end = { λ s good. good };

    ghost few = { λ s. few_left most_bytes (passed s.lister.scanner) refl };

    ghost room_grows = { λ n m fewer. mul-le-mul_left enough fewer };

    // Nothing is read once the listing has ended.
    fn feed(
        self,
        system: &mut System,
        bytes: &[u8],
        out: &mut [u8],
    ) -> Result<Step<Listing>, Failure> {
        let listed = self.lister.feed(bytes, out);
        system.show(b"mlist: standard output", &out[..listed.written])?;
        let next = Listing {
            lister: listed.next,
        };
        Ok(if listed.ended {
            Step::Over(next)
        } else {
            Step::More(next)
        })
    }

    // The last lines, which only a listing has whose reads and writes all went well.
    fn finish(self, system: &mut System, out: &mut [u8]) -> Result<(), Failure> {
        let listed = self.lister.finish(out);
        system.show(b"mlist: standard output", &out[..listed.written])
    }
}

// WHAT IS HANDED OUT IS THE LISTING OF THE INPUT.
fn whole(system: &mut System, input: &mut [u8], out: &mut [u8]) -> Result<(), Failure>
    requires { (enough * length input.old ≤ length out.old) × (0 < length input.old) × Trace system.old.turn [] [] [] }
    ensures { Ends mlist system.new.turn (is_ok result) }
{
    let listing = Listing {
        lister: Lister::fresh(),
    };
    shell::run(listing, system, b"mlist: standard input", input, out)
}

fn main(rt: HostRuntime) {
    let mut system = System::of(rt.stdin(), rt.stdout(), rt.stderr());
    let mut input = [0u8; 4096];
    let mut out = [0u8; 163840];
    let _ = whole(&mut system, &mut input, &mut out);
}
