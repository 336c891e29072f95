// What a line of a recording says.
ghost use Rattle.std.specs.Prelude.{◌≡◌, ◌≢◌, [], ◌∷◌, ◌≤◌, length, take, IfSome};
ghost use Rattle.listing.specs.Lines.{tab, byte_of, byte_in, mark_in, format_in, said_by, Tells};
ghost use Rattle.listing.specs.Batches.{LineAt};

use crate::{Line, Told};
use text::number;
use wire::{BREAK, SILENCE};

// A line of one byte.
fn mark(a: u8) -> Line
    ensures { result ≡ mark_in a }
{
    match a {
        b'X' => Line::Word(BREAK),
        b'Q' => Line::Word(SILENCE),
        _ => Line::Bad,
    }
}

// A letter of the table.
fn format(c: u8) -> Line
    ensures { result ≡ format_in c [] }
{
    if wire::known(c) {
        return Line::Format(c);
    }
    Line::Bad
}

// A number that is a byte.
fn byte(number: Option<i64>) -> Line
    ensures { result ≡ byte_of number }
{
    match number {
        None => Line::Bad,
        Some(x) => if (x < 0) | (255 < x) {
            Line::Bad
        } else {
            Line::Word(x as u16)
        },
    }
}

// The byte that the first n of three bytes are the decimal of.
fn decimal(n: usize, c: u8, d: u8, e: u8) -> Line
    ensures { result ≡ byte_in (take n (c ∷ d ∷ e ∷ [])) }
{
    let digits = [c, d, e];
    if n < 3 {
        return byte(number(&digits[..n], 1));
    }
    byte(number(&digits, 1))
}

// The line that the first n of five bytes are.
pub(crate) fn said_by(n: usize, a: u8, b: u8, c: u8, d: u8, e: u8) -> Line
    ensures { result ≡ said_by (take n (a ∷ b ∷ c ∷ d ∷ e ∷ [])) }
{
    if n == 1 {
        return mark(a);
    }
    if n < 3 {
        return Line::Bad;
    }
    if (a == b'F') & (b == b'\t') {
        if n == 3 {
            return format(c);
        }
        return Line::Bad;
    }
    if (a == b'B') & (b == b'\t') {
        return decimal(n - 2, c, d, e);
    }
    Line::Bad
}

// The byte of a line that begins with `B` and a tab.
fn byte_at(c: u8, d: u8, e: u8, f: u8) -> Option<Told>
    ensures { IfSome result (λ t. Tells (0x42 ∷ tab ∷ c ∷ d ∷ e ∷ f ∷ []) t × (t.taken ≢ 0)) }
{
    if !c.is_ascii_digit() {
        return None;
    }
    let one = u16::from(c - b'0');
    if d == b'\n' {
        return Some(Told {
            taken: 4,
            word: one,
        });
    }
    if !d.is_ascii_digit() || c == b'0' {
        return None;
    }
    let two = 10 * one + u16::from(d - b'0');
    if e == b'\n' {
        return Some(Told {
            taken: 5,
            word: two,
        });
    }
    if !e.is_ascii_digit() || f != b'\n' {
        return None;
    }
    let three = 10 * two + u16::from(e - b'0');
    if three > 255 {
        return None;
    }
    Some(Told {
        taken: 6,
        word: three,
    })
}

// The word of a line that lies whole at the front of six bytes.
fn word_at(a: u8, b: u8, c: u8, d: u8, e: u8, f: u8) -> Option<Told>
    ensures { IfSome result (λ t. Tells (a ∷ b ∷ c ∷ d ∷ e ∷ f ∷ []) t × (t.taken ≢ 0)) }
{
    match (a, b) {
        (b'B', b'\t') => byte_at(c, d, e, f),
        (b'Q', b'\n') => Some(Told {
            taken: 2,
            word: SILENCE,
        }),
        (b'X', b'\n') => Some(Told {
            taken: 2,
            word: BREAK,
        }),
        _ => None,
    }
}

// And of one at a place of a piece, in which six bytes are left there.
pub(crate) fn word_in(input: &[u8], at: usize) -> Option<Told>
    requires { at ≤ length input.now }
    ensures { IfSome result (LineAt input.now at) }
{
    if input.len() < at + 6 {
        return None;
    }
    let a = input[at];
    let b = input[at + 1];
    let c = input[at + 2];
    let d = input[at + 3];
    let e = input[at + 4];
    word_at(a, b, c, d, e, input[at + 5])
}
