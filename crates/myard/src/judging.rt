// A recording, judged byte by byte: the scanner, the check behind it, and what is to be said.
ghost use Rattle.std.specs.Prelude.{◌≡◌};
ghost use Rattle.myard.specs.Judging.{numbered, yes, over, line_for};
ghost use Rattle.myard.specs.Hearing.{unheard, judged_by, heard, behind_byte, behind_bytes, last_of, Holds};

use crate::{Judge, Verdict};
use listing::{Found, Scanner};
use text::Text;
use yard::Yard;

// The first word that cannot be sent is told.
#[tactic(auto, unfolding(crate::specs::Hearing::judged_by))]
fn judged(verdict: Verdict, can: bool, line: u32) -> Verdict
    ensures { result ≡ judged_by verdict can line }
{
    match verdict {
        Verdict::Yes if !can => Verdict::No(line),
        told => told,
    }
}

// A line of a letter and a number.
fn numbered(letter: u8, n: u32) -> Text
    ensures { Holds result (numbered letter n) }
{
    Text::none()
        .with(letter)
        .with(b'\t')
        .decimal(1, n as i64)
        .with(b'\n')
}

fn yes() -> Text
    ensures { Holds result yes }
{
    Text::none().with(b'Y').with(b'\n')
}

fn over() -> Text
    ensures { Holds result over }
{
    Text::none()
        .with(b'E')
        .with(b'\t')
        .with(b'o')
        .with(b'v')
        .with(b'e')
        .with(b'r')
        .with(b'\n')
}

// What is written: `Y`; `N` and a line; `E` and a line, or `over`.
pub(crate) fn line_for(verdict: Verdict) -> Text
    ensures { Holds result (line_for verdict) }
{
    match verdict {
        Verdict::Yes => yes(),
        Verdict::No(n) => numbered(b'N', n),
        Verdict::Bad(n) => numbered(b'E', n),
        Verdict::Over => over(),
    }
}

impl Judge {
    // Before the first byte.
    pub(crate) fn unheard() -> Judge
        ensures { result ≡ unheard }
    {
        Judge {
            scanner: Scanner {
                line: 0,
                ended: false,
                held: [0, 0, 0, 0, 0],
                count: 0,
            },
            yard: Yard::fresh(b'U').yard,
            verdict: Verdict::Yes,
        }
    }

    // What the scanner found, and where it stands then.
    fn heard(self, next: Scanner, found: Found) -> Judge
        ensures { result ≡ heard self next found }
    {
        let here = Judge {
            scanner: next,
            ..self
        };
        match found {
            Found::Nothing | Found::End => here,
            Found::Format(letter) => Judge {
                yard: Yard::fresh(letter).yard,
                ..here
            },
            Found::Word(line, word) => {
                let told = self.yard.step(word);
                Judge {
                    yard: told.next,
                    verdict: judged(self.verdict, told.can == 1, line),
                    ..here
                }
            }
            Found::Bad(n) => Judge {
                verdict: Verdict::Bad(n),
                ..here
            },
            Found::Over => Judge {
                verdict: Verdict::Over,
                ..here
            },
        }
    }

    // A byte.
    fn byte(self, b: u8) -> Judge
        ensures { result ≡ behind_byte self b }
    {
        let scan = self.scanner.byte(b);
        self.heard(scan.next, scan.found)
    }

    // Bytes, one after the other.
    pub(crate) fn bytes(self, bytes: &[u8]) -> Judge
        ensures { result ≡ behind_bytes self bytes.now }
    {
        let mut judge = self;
        for b in bytes {
            judge = judge.byte(*b);
        }
        judge
    }

    // The end of the input, behind a last line that may lack its newline.
    pub(crate) fn last(self) -> Judge
        ensures { result ≡ last_of self }
    {
        let closed = self.scanner.closed();
        let end = closed.next.end();
        self.heard(closed.next, closed.found)
            .heard(end.next, end.found)
    }
}
