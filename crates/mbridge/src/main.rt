// mbridge: a recording of any format on standard input, a recording of V on standard output, for a recorder that knows only V.
#![tactic(auto)]

ghost use Rattle.std.specs.Prelude.{◌≡◌, true, [], ◌*◌, ◌-◌, ◌≤◌, ◌<◌, length, is_ok};
ghost use Rattle.std.proofs.Common.{le_refl, refl};
ghost use Rattle.shell.proofs.Laws.{few_left};
ghost use Rattle.text.specs.Growth.{slice, filled_by};
ghost use Rattle.listing.specs.Scanning.{passed, most_bytes};
ghost use Rattle.bridge.specs.Good.{good};
ghost use Rattle.shell.specs.Outside.{Trace};
ghost use Rattle.shell.specs.Standing.{Ends};
ghost use Rattle.mbridge.specs.Lines.{numbered, byte_lines};
ghost use Rattle.mbridge.specs.Program.{mbridge};
ghost use Rattle.mbridge.specs.Blocks.{most, Puts, Takes, rest_of, Ready};

use crate::bridging::Bridging;
use bridge::Bridge;
use listing::{Found, Lister};
use shell::{Failure, Filter, Step, System};
use text::Text;

mod bridging;

// The places that a byte of the input needs at most: a report becomes 33 V reports of three bytes, and the line of a byte has six at most.
const MOST: usize = 594;

// The bridge, and the place behind the lines that were put.
#[derive(Clone, Copy, Drop)]
struct Put {
    next: Bridge,
    used: usize,
}

// The same behind a byte of the recording.
#[derive(Clone, Copy, Drop)]
struct Taken {
    next: Bridging,
    used: usize,
}

// A line of a letter and a number, to a slice at a place, and the place behind it.
fn numbered(out: &mut [u8], at: usize, letter: u8, n: u32) -> usize
    ensures { slice out.new result ≡ filled_by (slice out.old at) (numbered letter n) }
{
    let tab = Text::byte_to(out, at, letter);
    let number = Text::byte_to(out, tab, b'\t');
    let newline = Text::decimal_to(out, number, 1, n as i64);
    Text::byte_to(out, newline, b'\n')
}

// The lines of bytes.
fn lines(out: &mut [u8], at: usize, bytes: &[u8]) -> usize
    ensures { slice out.new result ≡ filled_by (slice out.old at) (byte_lines bytes.now) }
{
    let mut end = at;
    for b in bytes {
        end = numbered(out, end, b'B', *b as u32);
    }
    end
}

// A word to the bridge, and the lines of its V bytes. A report becomes 33 V reports at most.
fn word(out: &mut [u8], at: usize, bridge: Bridge, n: u32, w: u16) -> Put
    requires { good bridge ≡ true }
    ensures { Puts bridge (Found.Word n w) out.old at result out.new }
{
    let mut bytes = [0u8; 99];
    let converted = bridge.convert(&[w], &mut bytes);
    let count = 3 * converted.sent;
    let used = lines(out, at, &bytes[..count]);
    Put {
        next: converted.next,
        used,
    }
}

// The bridge of a format, and the first line.
fn format(out: &mut [u8], at: usize, bridge: Bridge, letter: u8) -> Put
    ensures { Puts bridge (Found.Format letter) out.old at result out.new }
{
    Put {
        next: Bridge::fresh(letter).unwrap_or_default(),
        used: Text::bytes_to(out, at, b"F\tV\n"),
    }
}

// What was found in the recording.
fn found(out: &mut [u8], at: usize, bridge: Bridge, found: Found) -> Put
    requires { good bridge ≡ true }
    ensures { Puts bridge found out.old at result out.new }
{
    match found {
        Found::Nothing | Found::End => Put {
            next: bridge,
            used: at,
        },
        Found::Format(letter) => format(out, at, bridge, letter),
        Found::Word(n, w) => word(out, at, bridge, n, w),
        Found::Bad(n) => Put {
            next: bridge,
            used: numbered(out, at, b'E', n),
        },
        Found::Over => Put {
            next: bridge,
            used: Text::bytes_to(out, at, b"E\tover\n"),
        },
    }
}

impl Bridging {
    // A byte of the input, and the lines of what is found at it.
    fn byte(self, out: &mut [u8], at: usize, b: u8) -> Taken
        ensures { Takes self b out.old at result out.new }
    {
        let scan = self.scanner.byte(b);
        let put = found(out, at, self.bridge, scan.found);
        Taken {
            next: Bridging {
                scanner: scan.next,
                bridge: put.next,
            },
            used: put.used,
        }
    }
}

impl Filter for Bridging {
    ghost program = { mbridge };

    ghost rest = { rest_of };

    ghost reads = { Ready };

    ghost ends = { λ s. good s.bridge ≡ true };

    ghost left = { λ s. most_bytes - passed s.scanner };

    ghost room = { λ _. 2 * most };

    ghost may_end = { λ s ready. ready.sound };

    ghost few = { λ s. few_left most_bytes (passed s.scanner) refl };

    ghost room_grows = { λ n m fewer. le_refl (2 * most) };

    // The bytes of a read, one by one: what has been put is shown before a byte that might have no room, and at the end.
    fn feed(
        self,
        system: &mut System,
        bytes: &[u8],
        out: &mut [u8],
    ) -> Result<Step<Bridging>, Failure> {
        let mut here = self;
        let mut used = 0;
        for b in bytes {
            if out.len() - used < MOST {
                system.show(b"mbridge: standard output", &out[..used])?;
                used = 0;
            }
            let taken = here.byte(out, used, *b);
            here = taken.next;
            used = taken.used;
        }
        system.show(b"mbridge: standard output", &out[..used])?;
        let over = here.scanner.ended;
        Ok(if over {
            Step::Over(here)
        } else {
            Step::More(here)
        })
    }

    // The last line, which may lack its newline, and the end.
    fn finish(self, system: &mut System, out: &mut [u8]) -> Result<(), Failure> {
        let closed = self.scanner.closed();
        let put = found(out, 0, self.bridge, closed.found);
        let end = closed.next.end();
        let all = found(out, put.used, put.next, end.found);
        system.show(b"mbridge: standard output", &out[..all.used])
    }
}

// WHAT IS HANDED OUT IS THE RECORDING OF V: nothing is read once the recording has ended.
fn whole(system: &mut System, input: &mut [u8], out: &mut [u8]) -> Result<(), Failure>
    requires { Trace system.old.turn [] [] [] × (0 < length input.old) × (2 * most ≤ length out.old) }
    ensures { Ends mbridge system.new.turn (is_ok result) }
{
    let bridging = Bridging {
        scanner: Lister::fresh().scanner,
        bridge: Bridge::fresh(b'U').unwrap_or_default(),
    };
    shell::run(bridging, system, b"mbridge: standard input", input, out)
}

fn main(rt: HostRuntime) {
    let mut system = System::of(rt.stdin(), rt.stdout(), rt.stderr());
    let mut input = [0u8; 4096];
    let mut out = [0u8; 16384];
    let _ = whole(&mut system, &mut input, &mut out);
}
