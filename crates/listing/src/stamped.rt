// Lines of the listing in places that are there: the quick way, proved to be the rule (printing.rt). None of the bytes
// asks for its own place. The number of a line is carried on to the next, which mostly changes its last digit alone.
ghost use Rattle.std.specs.Prelude.{◌≡◌, [], ◌∷◌, ◌++◌, ◌+◌, ◌-◌, ◌<◌, ◌≤◌, pos, nat_abs, length};
ghost use Rattle.text.specs.Decimals.{digit_of, digits_of, plain, unsigned_of, decimal_of};
ghost use Rattle.listing.specs.Lines.{tab, newline};
ghost use Rattle.listing.specs.Printing.{three, letter_d, letter_r};
ghost use Rattle.listing.specs.Stamped.{Filled, Stamps, stamped};

use crate::printing::{middle, pressed};
use crate::{Buttons, Stamp};

// The last digit of a number.
fn digit(n: u32) -> u8
    ensures { result ≡ digit_of n }
{
    48 + (n % 10) as u8
}

// Its last digits, as many as there are places: the last is written first.
fn digits(out: &mut [u8], at: usize, places: usize, n: u32) -> usize
    requires { at + places ≤ length out.old }
    ensures { Filled out.old at (digits_of places n) out.new result }
{
    let mut v = n;
    for k in (0..places).rev() {
        out[at + k] = digit(v);
        v /= 10;
    }
    at + places
}

// The stamp of a line.
pub(crate) fn stamp_of(n: u32) -> Stamp
    ensures { Stamps n result }
{
    let mut bytes = [b'\t'; 8];
    digits(&mut bytes, 1, 6, n);
    Stamp {
        bytes,
        last: digit(n),
    }
}

// The stamp of a line, by that of the line before it.
pub(crate) fn next(stamp: Stamp, n: u32) -> Stamp
    requires { (0 < n) × Stamps (n - 1) stamp }
    ensures { Stamps n result }
{
    if stamp.last < b'9' {
        return Stamp {
            last: stamp.last + 1,
            ..stamp
        };
    }
    stamp_of(n)
}

// A byte, and the place behind it.
fn byte(out: &mut [u8], at: usize, b: u8) -> usize
    requires { at < length out.old }
    ensures { Filled out.old at (b ∷ []) out.new result }
{
    out[at] = b;
    at + 1
}

// A number of five digits at most.
fn number(out: &mut [u8], at: usize, n: u32) -> usize
    requires { (at + 5 ≤ length out.old) × (n < 100000) }
    ensures { Filled out.old at (unsigned_of plain n) out.new result × (result ≤ at + 5) }
{
    if n < 10 {
        return digits(out, at, 1, n);
    }
    if n < 100 {
        return digits(out, at, 2, n);
    }
    if n < 1_000 {
        return digits(out, at, 3, n);
    }
    if n < 10_000 {
        return digits(out, at, 4, n);
    }
    digits(out, at, 5, n)
}

// The same with its sign.
fn signed(out: &mut [u8], at: usize, x: i64) -> usize
    requires { (at + 6 ≤ length out.old) × (nat_abs x < 100000) }
    ensures { Filled out.old at (decimal_of plain x) out.new result × (result ≤ at + 6) }
{
    if x < 0 {
        let behind = byte(out, at, b'-');
        return number(out, behind, (0 - x) as u32);
    }
    number(out, at, x as u32)
}

// A letter and a stamp.
fn headed(out: &mut [u8], at: usize, letter: u8, stamp: Stamp) -> usize
    requires { at + 9 ≤ length out.old }
    ensures { Filled out.old at (letter ∷ stamped stamp) out.new result × (result ≡ at + 9) }
{
    out[at] = letter;
    out[at + 1..at + 9].copy_from_slice(&stamp.bytes);
    out[at + 7] = stamp.last;
    at + 9
}

// The buttons, with a tab behind them.
fn three(out: &mut [u8], at: usize, buttons: Buttons) -> usize
    requires { at + 4 ≤ length out.old }
    ensures { Filled out.old at (three buttons ++ tab ∷ []) out.new result }
{
    let second = byte(out, at, pressed(buttons.left, b'L'));
    let third = byte(out, second, middle(buttons.middle));
    let end = byte(out, third, pressed(buttons.right, b'R'));
    byte(out, end, b'\t')
}

// The line of bytes dropped.
pub(crate) fn dropped(out: &mut [u8], at: usize, stamp: Stamp, k: u16) -> usize
    requires { at + 40 ≤ length out.old }
    ensures { Filled out.old at (letter_d ∷ stamped stamp ++ decimal_of plain (pos k) ++ (newline ∷ [])) out.new result × (result ≤ at + 40) }
{
    let first = headed(out, at, b'D', stamp);
    let end = number(out, first, k as u32);
    byte(out, end, b'\n')
}

// That of a report.
pub(crate) fn reported(
    out: &mut [u8],
    at: usize,
    stamp: Stamp,
    buttons: Buttons,
    x: i64,
    y: i64,
) -> usize
    requires { (at + 40 ≤ length out.old) × (nat_abs x < 100000) × (nat_abs y < 100000) }
    ensures { Filled out.old at (letter_r ∷ stamped stamp ++ (three buttons ++ tab ∷ []) ++ decimal_of plain x ++ (tab ∷ []) ++ decimal_of plain y ++ (newline ∷ [])) out.new result × (result ≤ at + 40) }
{
    let first = headed(out, at, b'R', stamp);
    let second = three(out, first, buttons);
    let third = signed(out, second, x);
    let fourth = byte(out, third, b'\t');
    let end = signed(out, fourth, y);
    byte(out, end, b'\n')
}
