// What every program here does with the system: bytes from standard input, bytes to standard output, words to standard error.
// Each of these moves on the moment, a number. What has passed at a moment is named in specs/Outside.
#![tactic(auto)]

mod filter;
mod words;

ghost use Rattle.std.specs.Prelude.{◌≡◌, ℕ, ◌≤◌, [], length, take, is_ok, IfOk, OnOk, OnErr};
ghost use Rattle.std.specs.Io.KnownBytes.{Appends};
ghost use Rattle.shell.specs.Outside.{Trace, Brought, Listened, Handed, Said, IsSameSystem};
ghost use Rattle.shell.specs.Buffer.{Behind, Moved};

pub use filter::{Filter, Step, run};
use std::env::FillError;
use std::io::{Error, ErrorKind, Read, Stderr, Stdin, Stdout, Write};
use std::rt::{Clock, Env};
use words::Words;

// What a program has of the system: its three streams, as `main` has them of its runtime, and the moment. Nothing outside this crate reads or writes one of
// them, and nobody has two moments.
#[derive(Drop)]
pub struct System {
    input: Stdin,
    output: Stdout,
    errors: Stderr,
    turn: u64,
}

// A read or a write failed, and standard error was told why, where it could be.
#[derive(Clone, Copy, Debug, Drop)]
pub struct Failure;

// Bytes to a stream, all or, where a write fails, a front of them. A write that a signal interrupts has failed.
fn written<W: Write>(stream: &mut W, bytes: &[u8]) -> Result<(), Error>
    ensures all { OnOk result (Appends (W.contents stream.old) (W.contents stream.new) bytes.now) }
    ensures front { OnErr result ((n : ℕ) × Appends (W.contents stream.old) (W.contents stream.new) (take n bytes.now)) }
{
    let mut rest = bytes;
    while !rest.is_empty() {
        let n = stream.write(rest)?;
        if n == 0 {
            return Err(Error::from(ErrorKind::WriteZero));
        }
        rest = &rest[n..];
    }
    Ok(())
}

impl System {
    // The first moment: nothing has been read or written yet. A program makes this once, in `main`.
    pub fn of(input: Stdin, output: Stdout, errors: Stderr) -> System
        ensures streams { (result.input ≡ input) × (result.output ≡ output) × (result.errors ≡ errors) }
        ensures trace { Trace result.turn [] [] [] }
    {
        System {
            input,
            output,
            errors,
            turn: 0,
        }
    }

    // The next moment.
    fn pass(&mut self)
        ensures { IsSameSystem self.old self.new }
    {
        self.turn = std::num::wrapping_add_u64(self.turn, 1);
    }

    // Why something failed, on standard error, behind the name.
    fn complain(&self, name: &[u8], why: Error) -> Failure {
        let mut errors = self.errors;
        let words = Words::of(why);
        let _ = written(&mut errors, name);
        let _ = written(&mut errors, b": ");
        let _ = written(&mut errors, words.bytes());
        let _ = written(&mut errors, b"\n");
        Failure
    }

    // One read of standard input, and where it fails why, on standard error, behind the name.
    fn read(&self, name: &[u8], part: &mut [u8]) -> Result<usize, Failure>
        ensures { IfOk result (λ n. n ≤ length part.new) }
    {
        let mut input = self.input;
        input.read(part).map_err(|why| self.complain(name, why))
    }

    // What a read of standard input brings, at the front of a part of a buffer. Where it fails, standard error says why, behind the name.
    pub fn more(&mut self, name: &[u8], part: &mut [u8]) -> Result<usize, Failure>
        ensures count_in_bounds { IfOk result (λ n. n ≤ length part.new) }
        ensures brought { Brought name.now self.old.turn self.new.turn result part.new }
        ensures streams { IsSameSystem self.old self.new }
    {
        let came = self.read(name, part);
        self.pass();
        came
    }

    // The same of a tty that answers an empty read after a tenth of a second: a read that brought nothing is a wait.
    pub fn hear(&mut self, name: &[u8], part: &mut [u8]) -> Result<usize, Failure>
        ensures count_in_bounds { IfOk result (λ n. n ≤ length part.new) }
        ensures listened { Listened name.now self.old.turn self.new.turn result part.new }
        ensures streams { IsSameSystem self.old self.new }
    {
        let came = self.read(name, part);
        self.pass();
        came
    }

    // The same as `more`, behind the bytes of a buffer that are held. Where it has not so many, nothing is read.
    pub fn behind(&mut self, name: &[u8], input: &mut [u8], held: usize) -> Result<usize, Failure>
        ensures behind { Behind name.now held self.old.turn self.new.turn result input.old input.new }
        ensures streams { IsSameSystem self.old self.new }
    {
        if held > input.len() {
            return Err(Failure);
        }
        self.more(name, &mut input[held..])
    }

    // Bytes to standard output. Where not all go, standard error says why, behind the name.
    pub fn show(&mut self, name: &[u8], bytes: &[u8]) -> Result<(), Failure>
        ensures handed { Handed name.now self.old.turn self.new.turn (is_ok result) bytes.now }
        ensures streams { IsSameSystem self.old self.new }
    {
        let mut output = self.output;
        let shown = written(&mut output, bytes).map_err(|why| self.complain(name, why));
        self.pass();
        shown
    }

    // Bytes to standard error.
    pub fn say(&mut self, bytes: &[u8]) -> Result<(), Failure>
        ensures said { Said self.old.turn self.new.turn (is_ok result) bytes.now }
        ensures streams { IsSameSystem self.old self.new }
    {
        let mut errors = self.errors;
        let said = written(&mut errors, bytes).map_err(|_| Failure);
        self.pass();
        said
    }
}

// Bytes to descriptor 3, which is for notes and neither of those. Nothing is promised of them: where it is not open they go nowhere.
pub fn note(bytes: &[u8]) {
    io::write_all(3, bytes);
}

// The seconds since 1970 began, as the system tells them. Nothing is promised of them.
pub fn seconds(clock: &impl Clock) -> i64 {
    match clock.since_1970() {
        Ok(time) => i64::try_from(time.as_secs()).unwrap_or(-1),
        Err(_) => -1,
    }
}

// How many words the program was called with, its own name among them: no more than so many.
pub fn word_count(call: &impl Env, most: usize) -> usize
    ensures { result ≤ most }
{
    let mut none = [0u8; 1];
    for i in 0..most {
        if let Err(FillError::NotPresent) = call.arg(i, &mut none) {
            return i;
        }
    }
    most
}

// One of them at the front of a part of a buffer, and how long it is: 0 where it is missing or longer than the part.
pub fn word(call: &impl Env, place: usize, part: &mut [u8]) -> usize
    ensures { result ≤ length part.new }
{
    call.arg(place, part).unwrap_or(0)
}

// So many bytes of a buffer from a place on, moved to its front. Where it has not so many, nothing is moved.
pub fn keep(input: &mut [u8], from: usize, count: usize)
    ensures { Moved from count input.old input.new }
{
    if from <= input.len() && count <= input.len() - from {
        input.copy_within(from..from + count, 0);
    }
}
