// The lister, byte by byte: the rule. The scanner and the reader behind it are fed in pieces; the text goes to a lent
// slice. batches.rt is the quick way.
ghost use Rattle.std.specs.Prelude.{◌≡◌, ◌<◌, length};
ghost use Rattle.text.specs.Growth.{text_of};
ghost use Rattle.listing.specs.Feeding.{front_of, turning, last_of, turn_of, turned, passed_to, Stands, Begins, feed_in, good};
ghost use Rattle.listing.specs.Promises.{FreshPromise, FeedPromise, FinishPromise, listed_in, whole, written};

use crate::{Front, Listed, Lister, Scan, Scanner, Turn, WIDTH, batches, items, printing};
use reader::Reader;
use text::Text;
use wire::Refusal;

// The answer of a lister that took and wrote so many bytes.
fn answer(refusal: Option<Refusal>, next: Lister, taken: usize, written: usize) -> Listed
    ensures { result ≡ record { refusal = refusal; next = next; taken = taken; written = written; ended = next.scanner.ended } }
{
    Listed {
        refusal,
        next,
        taken,
        written,
        ended: next.scanner.ended,
    }
}

// Bytes taken, the lister behind them, and the places used.
fn front(next: Lister, taken: usize, used: usize) -> Front
    ensures { result ≡ record { next = next; taken = taken; used = used } }
{
    Front { next, taken, used }
}

// The same at the start of a line, behind n others.
pub(crate) fn passed(n: u32, reader: Reader, taken: usize, used: usize) -> Front
    ensures { result ≡ record { next = passed_to n reader; taken = taken; used = used } }
{
    let next = Lister {
        scanner: Scanner {
            line: n,
            ended: false,
            held: [0; 5],
            count: 0,
        },
        reader,
    };
    front(next, taken, used)
}

impl Lister {
    // Before the first byte.
    pub fn fresh() -> Lister
        ensures { FreshPromise result }
    {
        Lister {
            scanner: Scanner {
                line: 0,
                ended: false,
                held: [0; 5],
                count: 0,
            },
            reader: Reader::default(),
        }
    }

    // A piece of the input, and its text to a lent slice. It stops before a byte whose text has no room.
    pub fn feed(self, input: &[u8], out: &mut [u8]) -> Listed
        ensures { FeedPromise self input.now out.old (listed_in result) out.new }
    {
        if !self.good() {
            return answer(Some(Refusal::BadState), self, 0, 0);
        }
        self.bytes(input, out)
    }

    // The end of the input. Where its text has no room nothing is written, and it can be called again.
    pub fn finish(self, out: &mut [u8]) -> Listed
        ensures { FinishPromise self out.old (listed_in result) out.new }
    {
        if !self.good() {
            return answer(Some(Refusal::BadState), self, 0, 0);
        }
        let t = self.last();
        let text = t.text;
        let n = text.len;
        if !text.put(out, 0) {
            return answer(None, self, 0, 0);
        }
        answer(None, t.next, 0, n)
    }

    // The first byte of a piece, and its text to the front of a slice; none where its text has no room.
    fn first(self, input: &[u8], out: &mut [u8]) -> Front
        requires { 0 < length input.now }
        ensures { Begins self input.now out.old result out.new }
    {
        let t = self.opened(self.scanner.byte(input[0]));
        let text = t.text;
        let n = text.len;
        if !text.put(out, 0) {
            return front(self, 0, 0);
        }
        front(t.next, 1, n)
    }

    // The lines of words at the front of a piece, where it begins with a line.
    fn quickly(self, input: &[u8], out: &mut [u8]) -> Front
        ensures { Stands self input.now out.old result.next result.taken result.used out.new }
    {
        let scanner = self.scanner;
        let h = scanner.held;
        let empty = (h[0] == 0) & (h[1] == 0) & (h[2] == 0) & (h[3] == 0) & (h[4] == 0);
        let starts = (scanner.count == 0) & !scanner.ended & empty;
        if !(starts & (scanner.line > 0)) {
            return front(self, 0, 0);
        }
        batches::words(scanner.line, self.reader, input, out)
    }

    // The front of a piece: lines of words, or else a byte.
    fn part(self, input: &[u8], out: &mut [u8]) -> Front
        requires { 0 < length input.now }
        ensures { Begins self input.now out.old result out.new }
    {
        let q = self.quickly(input, out);
        if q.taken != 0 {
            return q;
        }
        self.first(input, out)
    }

    // The bytes of a piece, one front after the other. The loop moves on by what was taken: a front takes as many bytes and writes as many as it finds, and both counts are given back; two slices that shrink would be counted beside it.
    fn bytes(self, input: &[u8], out: &mut [u8]) -> Listed
        ensures { whole (listed_in result) out.new ≡ written (feed_in self input.now (length out.old)) out.old }
    {
        let mut m = self;
        let mut at: usize = 0;
        let mut used: usize = 0;
        while at < input.len() {
            let f = m.part(&input[at..], &mut out[used..]);
            if f.taken == 0 {
                return answer(None, m, at, used);
            }
            m = f.next;
            at += f.taken;
            used += f.used;
        }
        answer(None, m, at, used)
    }

    // Whether it keeps its rules: a good scanner and a good reader.
    fn good(self) -> bool
        ensures { result ≡ good self }
    {
        self.scanner.good() & self.reader.good()
    }

    // The opening, where nothing has been written yet.
    fn front(self) -> Text
        ensures { result ≡ text_of (front_of self) }
    {
        let scanner = self.scanner;
        if (scanner.line == 0) & (scanner.count == 0) & !scanner.ended {
            return printing::opening(false, WIDTH);
        }
        Text::none()
    }

    // What was found is read, and printed behind a text.
    fn turn(self, front: Text, scan: Scan) -> Turn
        ensures { result ≡ turn_of front self scan }
    {
        let gave = items::gave(self.reader, scan.found);
        Turn {
            next: Lister {
                scanner: scan.next,
                reader: gave.next,
            },
            text: printing::printed(front, WIDTH, gave.given),
        }
    }

    // The same behind the opening, where it is still to come.
    fn opened(self, scan: Scan) -> Turn
        ensures { result ≡ turned (turning self scan) }
    {
        self.turn(self.front(), scan)
    }

    // The last line, and the end of the input behind it.
    fn last(self) -> Turn
        ensures { result ≡ turned (last_of self) }
    {
        let closed = self.turn(self.front(), self.scanner.closed());
        closed.next.turn(closed.text, closed.next.scanner.end())
    }
}
