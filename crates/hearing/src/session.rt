// A port, and behind it what tells of its words: the turns in which a program hears a line.
ghost use Rattle.std.specs.Prelude.{◌≡◌, ℕ, ◌*◌, ◌≤◌, ◌<◌, List, [], length};
ghost use Rattle.port.specs.Sessions.{step_of};
ghost use Rattle.shell.specs.Outside.{heard_in};
ghost use Rattle.hearing.specs.Events.{event_of};
ghost use Rattle.hearing.specs.Steps.{Step, Far};
ghost use Rattle.hearing.specs.Turns.{over, Goes};

use crate::Clock;
use port::{Heard, Port};
use shell::{Failure, System};

// More turns than a run has: each takes a tenth of a second or brings a byte.
pub const TURNS: u64 = 1_000_000_000_000_000;

// What tells of words, one by one.
pub trait Teller {
    // what is still to be written of words, and to be told where it ends behind them; and how many bytes the text of a word has at most
    ghost text: { Self → List ℕ → List ℕ };

    ghost told: { Self → List ℕ → List ℕ };

    ghost most: { ℕ };

    // A word: its text, to a slice at a place, and the place behind it.
    fn word(&mut self, word: u16, out: &mut [u8], at: usize) -> usize
        ensures { Step text told most self.old word out.old at self.new out.new result };

    // How many bytes, of so many, a read may bring whose text is to have room in so many: none only where there is no room, or nothing more is to be written.
    fn wants(&self, input: usize, out: usize) -> usize
        ensures within { result ≤ input }
        ensures room { most * result ≤ out }
        ensures some { result ≡ 0 → 0 < input → most ≤ out → (words : List ℕ) → text self.now words ≡ [] };

    // A turn at a second: what is noted of it, if anything. The second of the last note is given, and given back.
    fn noted(&self, last: i64, now: i64) -> i64;
}

// What a program calls its input and its output, where one of them fails.
#[derive(Clone, Copy, Drop)]
pub struct Names<'a> {
    pub input: &'a [u8],
    pub output: &'a [u8],
}

// A port, and behind it what tells of its words.
#[derive(Clone, Copy, Drop)]
pub struct Session<T> {
    pub port: Port,
    pub teller: T,
}

impl<T: Teller> Session<T> {
    // What the port told of a byte or a wait.
    fn tell(&mut self, heard: Heard, out: &mut [u8], at: usize) -> usize
        ensures { (h : ℕ) → heard ≡ step_of self.old.port (event_of h) → Step (over T.text) (over T.told) T.most self.old h out.old at self.new out.new result }
    {
        self.port = heard.next;
        match heard.given {
            None => at,
            Some(word) => self.teller.word(word, out, at),
        }
    }

    // A byte.
    fn byte(&mut self, b: u8, out: &mut [u8], at: usize) -> usize
        ensures { Step (over T.text) (over T.told) T.most self.old b out.old at self.new out.new result }
    {
        let heard = self.port.byte(b);
        self.tell(heard, out, at)
    }

    // The bytes that a read brought.
    fn bytes(&mut self, came: &[u8], out: &mut [u8]) -> usize
        ensures { Far (over T.text) (over T.told) T.most self.old came.now out.old (length came.now) self.new out.new result }
    {
        let mut at = 0;
        for b in came {
            at = self.byte(*b, out, at);
        }
        at
    }

    // What a read told: its bytes, or where it brought nothing, a tenth of a second.
    fn hear(&mut self, came: &[u8], out: &mut [u8]) -> usize
        ensures { Far (over T.text) (over T.told) T.most self.old (heard_in came.now) out.old (length (heard_in came.now)) self.new out.new result }
    {
        if !came.is_empty() {
            return self.bytes(came, out);
        }
        let heard = self.port.quiet(1);
        self.tell(heard, out, 0)
    }

    // A turn: one read, and the lines of what it told, by one write, so that none is cut where the program is stopped. How many bytes came.
    fn listen(
        &mut self,
        system: &mut System,
        names: Names,
        input: &mut [u8],
        out: &mut [u8],
    ) -> Result<usize, Failure>
        requires room { (0 < length input.old) × (T.most * length input.old ≤ length out.old) }
        ensures goes { Goes (over T.text) (over T.told) names.entry.input.now names.entry.output.now system.old.turn self.old system.new.turn self.new result }
    {
        let count = system.hear(names.input, input)?;
        let behind = self.hear(&input[..count], out);
        system.show(names.output, &out[..behind])?;
        Ok(count)
    }

    // Turn after turn, until no more is to be heard, the line is gone or something failed. The last turn is noted too. Where the slices have no room for
    // a byte and its text, nothing is read.
    pub fn turns(
        &mut self,
        system: &mut System,
        time: &impl std::rt::Clock,
        names: Names,
        input: &mut [u8],
        out: &mut [u8],
    ) -> Result<(), Failure>
        ensures goes { Goes (over T.text) (over T.told) names.entry.input.now names.entry.output.now system.old.turn self.old system.new.turn self.new result }
    {
        let mut clock = Clock { empty: 0 };
        let mut since: i64 = 0;
        let mut noted: i64 = 0;
        for _ in 0..TURNS {
            let most = self.teller.wants(input.len(), out.len());
            if most == 0 {
                break;
            }
            let came = self.listen(system, names, &mut input[..most], out);
            let now = shell::seconds(time);
            noted = self.teller.noted(noted, now);
            let Some(turned) = clock.turned(came? > 0, now == since) else {
                break;
            };
            clock = turned;
            if clock.empty < 2 {
                since = now;
            }
        }
        Ok(())
    }
}
