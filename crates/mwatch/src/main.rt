// mwatch LETTER [TENTHS]: what a serial line tells, as it comes, to standard output. Standard input is a tty that answers an empty
// read after a tenth of a second. A line for each report, `R`, its number, the buttons, x and y; for each press, `P`, its
// number and the button; and where bytes were dropped, `D`, how many so far and how many now.
#![tactic(auto)]

ghost use Rattle.std.specs.Prelude.{◌*◌, ◌≤◌, ◌<◌, ◌≡◌, [], ◌++◌, Option, pos, ◌+ℤ◌, length, is_ok};
ghost use Rattle.text.specs.Decimals.{plain, decimal_of};
ghost use Rattle.text.specs.Growth.{slice, filled_by};
ghost use Rattle.shell.specs.Outside.{Trace};
ghost use Rattle.shell.specs.Standing.{Program, Stands, Left, Leaves};
ghost use Rattle.reader.specs.declared.Answer.TheVariants as answer;
ghost use Rattle.mwatch.specs.Watching.{counted, field_of, pressed, middle_of, buttons_of, report_line, press_line, press_count, press_lines, presses_after, dropped_line, look_by, text_by, text_of, tells, rest, told, gone_words, fresh, mwatch};
ghost use Rattle.mwatch.specs.Turns.{Put};
ghost use Rattle.mwatch.specs.Refusals.{Ended};

use hearing::{Names, Session, Teller};
use port::Port;
use reader::{Answer, Reader};
use saves::Watch;
use shell::{Failure, System};
use text::Text;
use wire::Report;

// A reader and a watch behind it, and how many reports, presses and dropped bytes there were.
#[derive(Clone, Copy, Drop)]
struct Look {
    reader: Reader,
    watch: Watch,
    reports: u32,
    presses: u32,
    dropped: u32,
}

// So many more; a count stays at four thousand million.
fn counted(n: u32, more: u8) -> u32
    ensures { result ≡ counted n more }
{
    if n < 4_000_000_000 {
        n + more as u32
    } else {
        n
    }
}

// A tab and a number.
fn field_to(out: &mut [u8], at: usize, x: i64) -> usize
    ensures { Put 21 out.old at (field_of x) out.new result }
{
    let behind = Text::byte_to(out, at, b'\t');
    Text::decimal_to(out, behind, 1, x)
}

// A button's letter where it is down.
fn pressed(down: bool, letter: u8) -> u8
    ensures { result ≡ pressed down letter }
{
    if down { letter } else { b'-' }
}

fn middle(format: u8, buttons: u8) -> u8
    ensures { result ≡ middle_of format buttons }
{
    if format == b'V' {
        return b'?';
    }
    pressed(buttons / 2 % 2 == 1, b'M')
}

// A tab and the buttons.
fn buttons_to(out: &mut [u8], at: usize, format: u8, buttons: u8) -> usize
    ensures { Put 4 out.old at (buttons_of format buttons) out.new result }
{
    let left = pressed(buttons / 4 % 2 == 1, b'L');
    let mid = middle(format, buttons);
    let right = pressed(buttons % 2 == 1, b'R');
    let first = Text::byte_to(out, at, b'\t');
    let second = Text::byte_to(out, first, left);
    let third = Text::byte_to(out, second, mid);
    Text::byte_to(out, third, right)
}

// Two movements summed.
fn sum(a: i16, b: i16) -> i64
    ensures { result ≡ a +ℤ b }
{
    a as i64 + b as i64
}

// The line of a report.
fn report_to(
    out: &mut [u8],
    at: usize,
    format: u8,
    count: u32,
    buttons: u8,
    x: i64,
    y: i64,
) -> usize
    ensures { Put 69 out.old at (report_line format count buttons x y) out.new result }
{
    let first = Text::byte_to(out, at, b'R');
    let second = field_to(out, first, count as i64);
    let third = buttons_to(out, second, format, buttons);
    let fourth = field_to(out, third, x);
    let fifth = field_to(out, fourth, y);
    Text::byte_to(out, fifth, b'\n')
}

// The line of a press, where there is one.
fn press_to(out: &mut [u8], at: usize, count: &mut u32, went: bool, letter: u8) -> usize
    ensures { Put 25 out.old at (press_line count.old went letter) out.new result × (count.new ≡ press_count count.old went) }
{
    if !went {
        return at;
    }
    *count = counted(*count, 1);
    let first = Text::byte_to(out, at, b'P');
    let second = field_to(out, first, *count as i64);
    let third = Text::byte_to(out, second, b'\t');
    let fourth = Text::byte_to(out, third, letter);
    Text::byte_to(out, fourth, b'\n')
}

// The lines of the presses, of the left button first.
fn presses_to(out: &mut [u8], at: usize, count: &mut u32, down: u8) -> usize
    ensures { Put 75 out.old at (press_lines count.old down) out.new result × (count.new ≡ presses_after count.old down) }
{
    let left = press_to(out, at, count, down / 4 % 2 == 1, b'L');
    let middle = press_to(out, left, count, down / 2 % 2 == 1, b'M');
    press_to(out, middle, count, down % 2 == 1, b'R')
}

// The line of dropped bytes.
fn dropped_to(out: &mut [u8], at: usize, count: u32, lost: u8) -> usize
    ensures { Put 44 out.old at (dropped_line count lost) out.new result }
{
    let first = Text::byte_to(out, at, b'D');
    let second = field_to(out, first, count as i64);
    let third = field_to(out, second, lost as i64);
    Text::byte_to(out, third, b'\n')
}

impl Look {
    // A report: its line, and those of the presses that it shows.
    fn report(&mut self, next: Reader, report: Report, out: &mut [u8], at: usize) -> usize
        ensures { Put 144 out.old at (text_by self.old (answer.Report report)) out.new result × (self.new ≡ look_by self.old next (answer.Report report)) }
    {
        self.reports = counted(self.reports, 1);
        let x = sum(report.x1, report.x2);
        let y = sum(report.y1, report.y2);
        let first = report_to(
            out,
            at,
            self.reader.format,
            self.reports,
            report.buttons,
            x,
            y,
        );
        let told = self.watch.heard(report);
        self.reader = next;
        self.watch = told.next;
        presses_to(out, first, &mut self.presses, told.down)
    }

    // Dropped bytes: their line.
    fn dropped(&mut self, next: Reader, lost: u8, out: &mut [u8], at: usize) -> usize
        ensures { Put 144 out.old at (text_by self.old (answer.Dropped lost)) out.new result × (self.new ≡ look_by self.old next (answer.Dropped lost)) }
    {
        self.dropped = counted(self.dropped, lost);
        self.reader = next;
        dropped_to(out, at, self.dropped, lost)
    }
}

impl Teller for Look {
    ghost text = { text_of };

    ghost told = { tells };

    ghost most = { 144 };

    fn word(&mut self, word: u16, out: &mut [u8], at: usize) -> usize {
        let Ok(step) = self.reader.step(word) else {
            return at;
        };
        match step.answer {
            Answer::Nothing => {
                self.reader = step.next;
                at
            }
            Answer::Report(report) => self.report(step.next, report, out, at),
            Answer::Dropped(lost) => self.dropped(step.next, lost, out, at),
        }
    }

    // It goes on until the line is gone. No more are read than have room for what they tell.
    fn wants(&self, input: usize, out: usize) -> usize {
        input.min(out / 144)
    }

    // Nothing is noted.
    fn noted(&self, last: i64, _now: i64) -> i64 {
        last
    }
}

// Words and a count.
fn part_to(out: &mut [u8], at: usize, words: &[u8], count: u32) -> usize
    ensures { slice out.new result ≡ filled_by (slice out.old at) (words.now ++ decimal_of plain (pos count)) }
{
    let behind = Text::bytes_to(out, at, words);
    Text::decimal_to(out, behind, 1, count as i64)
}

// The counts, where the line is gone.
fn counts_to(out: &mut [u8], look: &Look) -> usize
    ensures { slice out.new result ≡ filled_by (slice out.old 0) (gone_words look.now) }
{
    let first = part_to(out, 0, b"mwatch: the line is gone: reports ", look.reports);
    let second = part_to(out, first, b", presses ", look.presses);
    let third = part_to(out, second, b", bytes dropped ", look.dropped);
    Text::byte_to(out, third, b'\n')
}

// The end: the line is gone. Where these words fail there is nobody to tell.
fn end(system: &mut System, session: Session<Look>, out: &mut [u8])
    requires { 144 ≤ length out.old }
    ensures { (p : Program) → Stands p system.old.turn (rest session) (told session) → Left p system.new.turn }
{
    let n = counts_to(out, &session.teller);
    let _ = system.say(&out[..n]);
}

// A port, a reader and a watch on which nothing has come.
fn fresh(letter: u8, tenths: u8) -> Session<Look>
    ensures { result ≡ fresh letter tenths }
{
    Session {
        port: Port::fresh(tenths as u32),
        teller: Look {
            reader: Reader::fresh(letter).unwrap_or_default(),
            watch: Watch::fresh(),
            reports: 0,
            presses: 0,
            dropped: 0,
        },
    }
}

// WHAT IS HANDED OUT IS WHAT THE READER AND THE WATCH TELL OF WHAT WAS HEARD.
fn watched(
    system: &mut System,
    time: &impl std::rt::Clock,
    letter: u8,
    tenths: u8,
    input: &mut [u8],
    out: &mut [u8],
) -> Result<(), Failure>
    requires { (0 < length input.old) × (144 * length input.old ≤ length out.old) × Trace system.old.turn [] [] [] }
    ensures { Leaves (mwatch letter tenths) system.new.turn (is_ok result) }
{
    let names = Names {
        input: b"mwatch: standard input",
        output: b"mwatch: standard output",
    };
    let mut session = fresh(letter, tenths);
    session.turns(system, time, names, input, out)?;
    end(system, session, out);
    Ok(())
}

// What the line tells; or, where it was called wrongly, what is wrong. A letter or a number of tenths that is wrong is none.
fn whole(
    system: &mut System,
    time: &impl std::rt::Clock,
    letter: Option<u8>,
    tenths: Option<u8>,
    input: &mut [u8],
    out: &mut [u8],
) -> Result<(), Failure>
    requires { (0 < length input.old) × (144 * length input.old ≤ length out.old) × Trace system.old.turn [] [] [] }
    ensures { Ended letter tenths system.new.turn (is_ok result) }
{
    let Some(letter) = letter else {
        return system.say(b"mwatch: LETTER is S, V, A, B, U, T or W\n");
    };
    let Some(tenths) = tenths else {
        return system.say(b"mwatch: TENTHS is a number from 1 to 255\n");
    };
    watched(system, time, letter, tenths, input, out)
}

// The second word: one tenth where there is none, and wrong where there are more words.
fn second(count: usize, word: &[u8]) -> Option<u8> {
    if count < 3 {
        return Some(1);
    }
    if count > 3 {
        return None;
    }
    hearing::tenths_in(word)
}

fn main(rt: HostRuntime) {
    let mut system = System::of(rt.stdin(), rt.stdout(), rt.stderr());
    // Fixed buffers, a word with its length: there is no heap.
    let mut input = [0u8; 256];
    let mut out = [0u8; 36864];
    let mut first_word = [0u8; 8];
    let mut second_word = [0u8; 8];
    let count = shell::word_count(&rt, 5);
    let first_size = shell::word(&rt, 1, &mut first_word);
    let second_size = shell::word(&rt, 2, &mut second_word);
    let letter = hearing::letter_in(&first_word[..first_size]);
    let tenths = second(count, &second_word[..second_size]);
    let _ = whole(&mut system, &rt, letter, tenths, &mut input, &mut out);
}
