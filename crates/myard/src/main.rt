// myard: whether the recording on standard input is a line that a box of ours can send, to standard output.
#![tactic(auto)]

ghost use Rattle.std.specs.Prelude.{◌-◌, ◌<◌, ◌≡◌, [], length, is_ok};
ghost use Rattle.std.proofs.Common.{le_refl, refl};
ghost use Rattle.shell.proofs.Laws.{few_left};
ghost use Rattle.shell.specs.Outside.{Trace};
ghost use Rattle.shell.specs.Standing.{Ends};
ghost use Rattle.listing.specs.Scanning.{passed, most_bytes};
ghost use Rattle.myard.specs.Hearing.{said_of};
ghost use Rattle.myard.specs.Program.{myard};
ghost use Rattle.myard.specs.Blocks.{Within};

use crate::judging::line_for;
use listing::Scanner;
use shell::{Failure, Filter, Step, System};
use yard::Yard;

mod judging;

// What is to be said: yes; no, with the line of the first word that cannot be sent; a bad line; a line too many.
#[derive(Clone, Copy, Drop)]
pub(crate) enum Verdict {
    Yes,
    No(u32),
    Bad(u32),
    Over,
}

// How far a recording has been judged: the scanner, the check behind it, and what is to be said.
#[derive(Clone, Copy, Drop)]
pub(crate) struct Judge {
    pub scanner: Scanner,
    pub yard: Yard,
    pub verdict: Verdict,
}

impl Filter for Judge {
    ghost program = { myard };

    ghost rest = { said_of };

    ghost reads = { Within };

    ghost ends = { λ _. Unit {0} };

    ghost left = { λ j. most_bytes - passed j.scanner };

    ghost room = { λ _. 0 };

    ghost may_end = { λ j within. tt };

    ghost few = { λ j. few_left most_bytes (passed j.scanner) refl };

    ghost room_grows = { λ n m fewer. le_refl 0 };

    // What a read brought is judged, and nothing is read once the recording has ended.
    fn feed(
        self,
        system: &mut System,
        bytes: &[u8],
        out: &mut [u8],
    ) -> Result<Step<Judge>, Failure> {
        let next = self.bytes(bytes);
        let over = next.scanner.ended;
        Ok(if over {
            Step::Over(next)
        } else {
            Step::More(next)
        })
    }

    // What is said at the end, where all reads went well.
    fn finish(self, system: &mut System, out: &mut [u8]) -> Result<(), Failure> {
        let text = line_for(self.last().verdict);
        system.show(b"myard: standard output", &text.bytes[..text.len])
    }
}

// WHAT IS HANDED OUT IS THE JUDGEMENT OF THE RECORDING.
fn whole(system: &mut System, input: &mut [u8]) -> Result<(), Failure>
    requires trace { Trace system.old.turn [] [] [] }
    requires input_nonzero { 0 < length input.old }
    ensures { Ends myard system.new.turn (is_ok result) }
{
    shell::run(
        Judge::unheard(),
        system,
        b"myard: standard input",
        input,
        &mut [],
    )
}

fn main(rt: HostRuntime) {
    let mut system = System::of(rt.stdin(), rt.stdout(), rt.stderr());
    let mut input = [0u8; 4096];
    let _ = whole(&mut system, &mut input);
}
