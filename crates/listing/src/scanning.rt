// The scanner: the bytes of a recording to numbered words, or a bad line.
ghost use Rattle.std.specs.Prelude.{◌≡◌, ◌<◌};
ghost use Rattle.listing.specs.Lines.{said_by};
ghost use Rattle.listing.specs.Scanning.{width, most_lines, ends, on_line, line_in, scan, unfinished, taken_of, good};
ghost use Rattle.listing.specs.Promises.{ByteScanPromise, ClosedScanPromise, EndScanPromise};

use crate::{Found, Line, Scan, Scanner, WIDTH, lines};

// The most lines: as many as the width of line numbers holds.
pub(crate) fn most_lines() -> u32
    ensures { result ≡ most_lines }
{
    let tens = [1u32, 10, 100, 1_000, 10_000, 100_000, 1_000_000];
    tens[WIDTH as usize] - 1
}

// Whether nothing is found behind it.
fn ends(found: Found) -> bool
    ensures { result ≡ ends found }
{
    matches!(found, Found::Bad(_) | Found::Over | Found::End)
}

// What is found on the line behind n others.
fn on_line(n: u32, line: Line) -> Found
    requires { n < most_lines }
    ensures { result ≡ on_line n line }
{
    match line {
        Line::Bad => Found::Bad(n + 1),
        Line::Format(letter) => if n == 0 {
            Found::Format(letter)
        } else {
            Found::Bad(n + 1)
        },
        Line::Word(word) => if n == 0 {
            Found::Bad(n + 1)
        } else {
            Found::Word(n + 1, word)
        },
    }
}

// The same, and no line too many.
fn line_in(n: u32, line: Line) -> Found
    ensures { result ≡ line_in width n line }
{
    if n >= most_lines() {
        return Found::Over;
    }
    on_line(n, line)
}

// At the start of a line, behind n others.
fn at_line(n: u32, ended: bool, found: Found) -> Scan
    ensures { result ≡ scan n ended found }
{
    Scan {
        next: Scanner {
            line: n,
            ended,
            held: [0; 5],
            count: 0,
        },
        found,
    }
}

impl Scanner {
    // Whether it keeps its rules: no line too many, and five bytes at most.
    pub(crate) fn good(self) -> bool
        ensures { result ≡ good self }
    {
        (self.line <= most_lines()) & (self.count <= 5)
    }

    // What the unfinished line says.
    fn says(self) -> Line
        ensures { result ≡ said_by (unfinished self) }
    {
        let h = self.held;
        lines::said_by(self.count, h[0], h[1], h[2], h[3], h[4])
    }

    // A whole line: nothing is found after the end.
    pub(crate) fn taken(self, line: Line) -> Scan
        ensures { result ≡ taken_of self line }
    {
        if self.ended {
            return at_line(self.line, true, Found::Nothing);
        }
        let found = line_in(self.line, line);
        if ends(found) {
            return at_line(self.line, true, found);
        }
        at_line(self.line + 1, false, found)
    }

    // One byte: a newline ends the line, and a sixth byte makes it bad.
    #[inline(always)]
    pub fn byte(self, b: u8) -> Scan
        ensures { ByteScanPromise self b result }
    {
        if b == b'\n' {
            return self.taken(self.says());
        }
        let n = self.count;
        if n >= 5 {
            return self.taken(Line::Bad);
        }
        let mut held = self.held;
        held[n] = b;
        Scan {
            next: Scanner {
                held,
                count: n + 1,
                ..self
            },
            found: Found::Nothing,
        }
    }

    // The last line, which may lack its newline.
    pub fn closed(self) -> Scan
        ensures { ClosedScanPromise self result }
    {
        if self.count == 0 {
            return Scan {
                next: self,
                found: Found::Nothing,
            };
        }
        self.taken(self.says())
    }

    // The end of the input.
    pub fn end(self) -> Scan
        ensures { EndScanPromise self result }
    {
        if self.ended {
            return at_line(self.line, true, Found::Nothing);
        }
        if self.line == 0 {
            return at_line(self.line, true, Found::Bad(1));
        }
        at_line(self.line, true, Found::End)
    }
}
