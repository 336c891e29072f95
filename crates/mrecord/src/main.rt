// mrecord LETTER [TENTHS [Q]]: a recording of a serial line, to standard output. Standard input is a tty that answers an empty
// read after a tenth of a second (stty .. parmrk inpck min 0 time 1); so many of them make a silence. With Q the recording
// begins with a silence, where the one before it ended.
#![tactic(auto)]

ghost use Rattle.std.specs.Prelude.{◌*◌, ◌≤◌, ◌<◌, ◌≡◌, Bool, Option, [], length, is_ok};
ghost use Rattle.text.specs.Growth.{slice, filled_by};
ghost use Rattle.shell.specs.Outside.{Trace};
ghost use Rattle.shell.specs.Standing.{Program, Stands, Left, Leaves};
ghost use Rattle.mrecord.specs.Recording.{line_of, behind_line, text, tells, rest, told, first_line, first_lines, fresh, mrecord};
ghost use Rattle.mrecord.specs.Refusals.{Ended};

use hearing::{Names, Session, Teller};
use port::Port;
use shell::{Failure, System};
use text::Text;
use wire::{BREAK, SILENCE};

mod notes;

// How many lines of the recording are left, and the word of the last line.
#[derive(Clone, Copy, Drop)]
struct Tape {
    left: u32,
    last: u16,
}

// The line of a word, to a slice at a place, and the place behind it.
fn line_to(out: &mut [u8], at: usize, word: u16) -> usize
    ensures { slice out.new result ≡ filled_by (slice out.old at) (line_of word) }
{
    if word == BREAK {
        let behind = Text::byte_to(out, at, b'X');
        return Text::byte_to(out, behind, b'\n');
    }
    if word == SILENCE {
        let behind = Text::byte_to(out, at, b'Q');
        return Text::byte_to(out, behind, b'\n');
    }
    let first = Text::byte_to(out, at, b'B');
    let second = Text::byte_to(out, first, b'\t');
    let third = Text::decimal_to(out, second, 1, word as i64);
    Text::byte_to(out, third, b'\n')
}

// How many lines are left behind the line of a word.
fn behind_line(left: u32, word: u16) -> u32
    ensures { result ≡ behind_line left word }
{
    if (word == SILENCE) & (left < 1000) {
        return 0;
    }
    left
}

impl Teller for Tape {
    ghost text = { text };

    ghost told = { tells };

    ghost most = { 9 };

    // The line of a word, where one is left.
    fn word(&mut self, word: u16, out: &mut [u8], at: usize) -> usize {
        if self.left == 0 {
            return at;
        }
        let line_end = line_to(out, at, word);
        self.left = behind_line(self.left - 1, word);
        self.last = word;
        line_end
    }

    // No more than have room for their lines, and no more than lines are left, so that none is read that finds no line.
    fn wants(&self, input: usize, out: usize) -> usize {
        input.min(out / 9).min(self.left as usize)
    }

    fn noted(&self, last: i64, now: i64) -> i64 {
        notes::noted(self.left, last, now)
    }
}

// The first line.
fn first_line(letter: u8, out: &mut [u8]) -> usize
    ensures { slice out.new result ≡ filled_by (slice out.old 0) (first_line letter) }
{
    let first = Text::byte_to(out, 0, b'F');
    let second = Text::byte_to(out, first, b'\t');
    let third = Text::byte_to(out, second, letter);
    Text::byte_to(out, third, b'\n')
}

// And the second where it begins with a silence.
fn first_lines(letter: u8, begins: bool, out: &mut [u8]) -> usize
    ensures { slice out.new result ≡ filled_by (slice out.old 0) (first_lines letter begins) }
{
    let n = first_line(letter, out);
    if begins {
        return line_to(out, n, SILENCE);
    }
    n
}

// The end: the recording is full, or the line is gone. Where these words fail there is nobody to tell.
fn end(system: &mut System, session: Session<Tape>)
    ensures { (p : Program) → Stands p system.old.turn (rest session) (told session) → Left p system.new.turn }
{
    let tape = session.teller;
    let _ = if tape.left != 0 {
        system.say(b"mrecord: the line is gone\n")
    } else if tape.last == SILENCE {
        system.say(b"mrecord: the recording is full, at a silence\n")
    } else {
        system.say(b"mrecord: the recording is full\n")
    };
}

// A tape on which the first lines stand, behind a port.
fn fresh(tenths: u8, begins: bool) -> Session<Tape>
    ensures { result ≡ fresh tenths begins }
{
    Session {
        port: Port::fresh(tenths as u32),
        teller: Tape {
            left: if begins { 999_997 } else { 999_998 },
            last: 0,
        },
    }
}

// WHAT IS HANDED OUT IS THE RECORDING OF WHAT WAS HEARD.
fn recorded(
    system: &mut System,
    time: &impl std::rt::Clock,
    letter: u8,
    tenths: u8,
    begins: bool,
    input: &mut [u8],
    out: &mut [u8],
) -> Result<(), Failure>
    requires { (0 < length input.old) × (9 * length input.old ≤ length out.old) × Trace system.old.turn [] [] [] }
    ensures { Leaves (mrecord letter tenths begins) system.new.turn (is_ok result) }
{
    let names = Names {
        input: b"mrecord: standard input",
        output: b"mrecord: standard output",
    };
    let n = first_lines(letter, begins, out);
    system.show(names.output, &out[..n])?;
    let mut session = fresh(tenths, begins);
    session.turns(system, time, names, input, out)?;
    end(system, session);
    Ok(())
}

// The recording; or, where it was called wrongly, what is wrong. A letter, a number of tenths or a third word that is wrong is none.
fn whole(
    system: &mut System,
    time: &impl std::rt::Clock,
    letter: Option<u8>,
    tenths: Option<u8>,
    begins: Option<bool>,
    input: &mut [u8],
    out: &mut [u8],
) -> Result<(), Failure>
    requires { (0 < length input.old) × (9 * length input.old ≤ length out.old) × Trace system.old.turn [] [] [] }
    ensures { Ended letter tenths begins system.new.turn (is_ok result) }
{
    let Some(letter) = letter else {
        return system.say(b"mrecord: LETTER is S, V, A, B, U, T or W\n");
    };
    let Some(tenths) = tenths else {
        return system.say(b"mrecord: TENTHS is a number from 1 to 255\n");
    };
    let Some(begins) = begins else {
        return system.say(b"mrecord: behind TENTHS stands Q or nothing\n");
    };
    recorded(system, time, letter, tenths, begins, input, out)
}

// The second word: one tenth where there is none.
fn second(count: usize, word: &[u8]) -> Option<u8> {
    if count < 3 {
        return Some(1);
    }
    hearing::tenths_in(word)
}

// Whether it begins with a silence: where the third word is Q, and not where there is none. Any other is wrong, and so are more words.
fn third(count: usize, word: &[u8]) -> Option<bool> {
    if count < 4 {
        return Some(false);
    }
    match word {
        [b'Q'] if count == 4 => Some(true),
        _ => None,
    }
}

fn main(rt: HostRuntime) {
    let mut system = System::of(rt.stdin(), rt.stdout(), rt.stderr());
    // Fixed buffers, a word with its length: there is no heap.
    let mut input = [0u8; 512];
    let mut out = [0u8; 4608];
    let mut first_word = [0u8; 8];
    let mut second_word = [0u8; 8];
    let mut third_word = [0u8; 8];
    let count = shell::word_count(&rt, 5);
    let first_size = shell::word(&rt, 1, &mut first_word);
    let second_size = shell::word(&rt, 2, &mut second_word);
    let third_size = shell::word(&rt, 3, &mut third_word);
    let letter = hearing::letter_in(&first_word[..first_size]);
    let tenths = second(count, &second_word[..second_size]);
    let begins = third(count, &third_word[..third_size]);
    let _ = whole(
        &mut system,
        &rt,
        letter,
        tenths,
        begins,
        &mut input,
        &mut out,
    );
}
