// What is written to standard output.
ghost use Rattle.std.specs.Prelude.{◌<◌};

use std::io::Stdout;
use text::{PLAIN, Text};
use wire::Report;

pub(crate) fn say(output: Stdout, bytes: &[u8]) {
    let _ = output.write_all(bytes);
}

pub(crate) fn number(output: Stdout, n: usize) {
    let _ = print!(output; "{n}");
}

// A number below 256.
pub(crate) fn small(output: Stdout, n: u8) {
    number(output, n as usize);
}

// A sum of 64 bits.
pub(crate) fn long(output: Stdout, v: i64) {
    let decimal = Text::none().decimal(PLAIN, v);
    if let Some(shown) = decimal.bytes.get(..decimal.len) {
        say(output, shown);
    }
}

pub(crate) fn signed(output: Stdout, v: i16) {
    long(output, v as i64);
}

fn digit(n: u8) -> u8
    requires { n < 16 }
{
    if n < 10 { b'0' + n } else { b'A' - 10 + n }
}

// A byte in hexadecimal.
pub(crate) fn byte(output: Stdout, b: u8) {
    let digits = [digit(b / 16), digit(b % 16)];
    say(output, &digits);
}

// A line word: a byte in hexadecimal, and 256 or 257 as they are.
pub(crate) fn word(output: Stdout, w: u16) {
    if w <= 255 {
        byte(output, w as u8);
    } else {
        number(output, w as usize);
    }
}

fn key(down: u8, letter: u8) -> u8 {
    if down == 1 { letter } else { b'-' }
}

// Buttons as L M R, or `-`.
pub(crate) fn buttons(output: Stdout, n: u8) {
    let keys = [key(n / 4 % 2, b'L'), key(n / 2 % 2, b'M'), key(n % 2, b'R')];
    say(output, &keys);
}

fn pair(output: Stdout, x: i16, y: i16) {
    say(output, b" ");
    signed(output, x);
    say(output, b" ");
    signed(output, y);
}

// A report: its buttons and both pairs.
pub(crate) fn report(output: Stdout, r: Report) {
    buttons(output, r.buttons);
    pair(output, r.x1, r.y1);
    pair(output, r.x2, r.y2);
}
