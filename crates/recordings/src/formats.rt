// A recording of each format: a silence, and a report for every state of the buttons.
ghost use Rattle.std.specs.Prelude.{◌≤◌, length};
ghost use Rattle.io.specs.Counts.{IsPrefixLen};

use crate::cuts::case;
use crate::making::{append, report};
use std::io::Stdout;
use wire::Report;

// A format, and a silence.
fn opening(out: &mut [u8], letter: u8) -> usize
    ensures { result ≤ length out.new }
{
    let letters = [letter];
    let named = append(out, 0, b"F\t");
    let lettered = append(out, named, &letters);
    append(out, lettered, b"\nQ\n")
}

// The same, and a report with these two pairs for every state of the buttons.
fn states(out: &mut [u8], letter: u8, x1: i16, y1: i16, x2: i16, y2: i16) -> usize
    ensures { IsPrefixLen result out.new }
{
    let mut n = opening(out, letter);
    for buttons in 0..8 {
        let moved = Report {
            buttons,
            x1,
            y1,
            x2,
            y2,
        };
        n = report(out, n, letter, moved);
    }
    n
}

// A case for a format.
fn format(output: Stdout, title: &[u8], letter: u8, x1: i16, y1: i16, x2: i16, y2: i16) {
    let mut recording = [0u8; 512];
    let n = states(&mut recording, letter, x1, y1, x2, y2);
    case(output, title, &recording[..n]);
}

// Every format, with the least and the most that it holds.
pub(crate) fn every_format(output: Stdout) {
    format(output, b"buttons 0 to 7 in S", b'S', 127, -127, 0, 0);
    format(output, b"buttons 0 to 7 in V", b'V', -128, 128, 0, 0);
    format(output, b"buttons 0 to 7 in A", b'A', 4095, 0, 0, 0);
    format(output, b"buttons 0 to 7 in B", b'B', -2048, 2047, 0, 0);
    format(output, b"buttons 0 to 7 in U", b'U', -128, 127, -128, 127);
    format(output, b"buttons 0 to 7 in T", b'T', -128, 127, 0, 0);
    format(output, b"buttons 0 to 7 in W", b'W', 127, -128, 0, 0);
}
