// Lines of reports: from the encoder through the reader, and laid beside what was sent.
ghost use Rattle.std.specs.Prelude.{◌≡◌, ◌+◌, ◌≤◌, length};

use crate::passes::{Cut, Pass, passed};
use crate::print;
use crate::reports::{carried, encoded, made, put, show};
use std::io::Stdout;
use wire::Report;

// The reports of a line; their numbers, five for each; and the most words: five for each, and a silence.
const REPORTS: usize = 256;

const NUMBERS: usize = 1280;

const WORDS: usize = 1281;

// Room for a hundred reports, and three places.
const SHORT: usize = 503;

// What stands where nothing is read: no report has this number.
const UNREAD: i16 = 9999;

// In U, T, W a silence comes first.
fn begun(letter: u8, words: &mut [u16]) -> usize
    requires { 1 ≤ length words.old }
    ensures { result ≤ 1 }
{
    if wire::marked(letter) {
        return 0;
    }
    words[0] = 257;
    1
}

// A report's bytes to the line from a place on, and the place behind them.
fn send(letter: u8, report: Report, words: &mut [u16], at: usize) -> usize
    requires { at + 5 ≤ length words.old }
    ensures { result ≤ at + 5 }
{
    let coded = encoded(letter, report);
    for (i, byte) in coded.bytes[..coded.length].iter().enumerate() {
        words[at + i] = u16::from(*byte);
    }
    at + coded.length
}

// A format's line, the numbers that its reports carry, and how many words it has.
fn lay(letter: u8, words: &mut [u16], sent: &mut [i16]) -> usize
    requires { (length words.old ≡ 1281) × (length sent.old ≡ 1280) }
    ensures { result ≤ length words.new }
{
    let mut at = begun(letter, words);
    for n in 0..REPORTS {
        let report = made(letter, n as u8);
        at = send(letter, report, words, at);
        put(&mut sent[5 * n..], carried(letter, report));
    }
    at
}

// The first place at which two lines of numbers differ, or the end of both.
fn difference(sent: &[i16; NUMBERS], read: &[i16; NUMBERS]) -> usize {
    let differs = sent.iter().zip(read).position(|(s, r)| s != r);
    differs.unwrap_or(NUMBERS)
}

fn verdict(output: Stdout, place: usize) {
    if place == NUMBERS {
        print::say(output, b"as sent\n");
    } else {
        print::say(output, b"differs at place ");
        print::number(output, place);
        print::say(output, b"\n");
    }
}

fn counts(output: Stdout, p: Pass) {
    print::say(output, b"calls ");
    print::number(output, p.calls);
    print::say(output, b", words ");
    print::number(output, p.taken);
    print::say(output, b", reports ");
    print::number(output, p.reports);
    print::say(output, b", dropped ");
    print::number(output, p.dropped);
    print::say(output, b", ");
}

// The line read with at most so many words and so many places in a call.
fn row(output: Stdout, letter: u8, words: &[u16], sent: &[i16; NUMBERS], cut: Cut) {
    let mut read = [UNREAD; NUMBERS];
    let p = passed(letter, cut, words, &mut read);
    print::say(output, b"  cut ");
    print::number(output, cut.words);
    print::say(output, b", room ");
    print::number(output, cut.places);
    print::say(output, b": ");
    counts(output, p);
    verdict(output, difference(sent, &read));
}

// The line in pieces of so many words.
fn pieces(output: Stdout, letter: u8, words: &[u16], sent: &[i16; NUMBERS], size: usize) {
    let cut = Cut {
        words: size,
        places: NUMBERS,
    };
    row(output, letter, words, sent, cut);
}

// The whole line to a slice that is too short: a call stops for room, and the rest of the words goes on with fresh room.
fn short(output: Stdout, letter: u8, words: &[u16], sent: &[i16; NUMBERS]) {
    let cut = Cut {
        words: words.len(),
        places: SHORT,
    };
    row(output, letter, words, sent, cut);
}

fn rows(output: Stdout, letter: u8, words: &[u16], sent: &[i16; NUMBERS]) {
    pieces(output, letter, words, sent, 1);
    pieces(output, letter, words, sent, 2);
    pieces(output, letter, words, sent, 3);
    pieces(output, letter, words, sent, 7);
    pieces(output, letter, words, sent, 64);
    pieces(output, letter, words, sent, words.len());
    short(output, letter, words, sent);
}

// What a line is: its reports and words, and its first and last report.
fn heading(output: Stdout, letter: u8, count: usize) {
    print::say(output, &[letter]);
    print::say(output, b": reports ");
    print::number(output, REPORTS);
    print::say(output, b", words ");
    print::number(output, count);
    print::say(output, b"\n  first ");
    show(output, letter, made(letter, 0));
    print::say(output, b"  last ");
    show(output, letter, made(letter, 255));
}

fn format(output: Stdout, letter: u8) {
    let mut words = [0u16; WORDS];
    let mut sent = [0i16; NUMBERS];
    let count = lay(letter, &mut words, &mut sent);
    heading(output, letter, count);
    rows(output, letter, &words[..count], &sent);
}

pub(crate) fn formats(output: Stdout) {
    print::say(output, b"Lines of reports\n");
    format(output, b'S');
    format(output, b'V');
    format(output, b'A');
    format(output, b'B');
    format(output, b'U');
    format(output, b'T');
    format(output, b'W');
}
