// A listing rewritten at the other width, line by line.
ghost use Rattle.std.specs.Prelude.{◌≡◌, true, ◌<◌, length};
ghost use Rattle.listing.specs.Scanning.{most_at};
ghost use Rattle.readback.specs.Steps.{width_known, good};
ghost use Rattle.readback.specs.Rewriting.{other_width, fits_at, given_fits, rewriting, rewritten, rewrite_lines};
ghost use Rattle.readback.specs.Pieces.{pieces_of};
ghost use Rattle.readback.specs.Parts.{Rewrites};
ghost use Rattle.readback.specs.Promises.{RewritePromise};

use crate::{FAULTY_LINE, Readback, Rewritten, TOO_WIDE};
use listing::Item;
use wire::BAD_STATE;

// The other of the two widths.
fn other_width(width: u8) -> u8
    ensures { result ≡ other_width width }
{
    if width == 6 { 4 } else { 6 }
}

// The highest line number at one of them.
pub(crate) fn most(width: u8) -> u32
    requires { width_known width ≡ true }
    ensures { result ≡ most_at width }
{
    if width == 6 { 999_999 } else { 9_999 }
}

// Whether the number of an item's line, if it has one, fits a width.
fn fits(width: u8, item: Item) -> bool
    requires { width_known width ≡ true }
    ensures { result ≡ fits_at width item }
{
    match item.line_number() {
        Some(n) => n <= most(width),
        None => true,
    }
}

fn given_fits(width: u8, given: Option<Item>) -> bool
    requires { width_known width ≡ true }
    ensures { result ≡ given_fits width given }
{
    match given {
        None => true,
        Some(item) => fits(width, item),
    }
}

fn rewritten(refusal: u8, next: Readback, taken: usize, count: usize, line: u32) -> Rewritten
    ensures { result ≡ rewritten refusal next taken count line }
{
    Rewritten {
        refusal: refusal,
        line: line,
        taken: taken,
        written: count,
        next: next,
    }
}

impl Readback {
    // A piece of a listing, at the other width to a lent slice. It takes whole lines, and stops before one that has no room, a faulty one, and one whose number
    // does not fit.
    pub fn rewrite(self, input: &[u8], out: &mut [u8]) -> Rewritten
        ensures { RewritePromise self input.now out.old result out.new }
    {
        if !self.good() {
            return rewritten(BAD_STATE, self, 0, 0, 0);
        }
        self.rewrite_lines(input, out)
    }

    // The first line of a piece.
    fn rewrite_first(self, input: &[u8], out: &mut [u8]) -> Rewritten
        requires { (good self ≡ true) × (0 < length input.now) }
        ensures { Rewrites self input.now out.old result out.new }
    {
        let Ok(front) = self.front(input) else {
            return rewritten(FAULTY_LINE, self, 0, 0, self.lines + 1);
        };
        let Some(line) = front else {
            return rewritten(0, self, 0, 0, 0);
        };
        let width = other_width(line.next.width);
        if !given_fits(width, line.given) {
            return rewritten(TOO_WIDE, self, 0, 0, self.lines + 1);
        }
        let text = listing::line_at(line.given, line.next.salvage == 1, width);
        if !text.put(out, 0) {
            return rewritten(0, self, 0, 0, 0);
        }
        rewritten(0, line.next, line.taken, text.len, 0)
    }

    // The lines, one after the other, as `lines` of pieces: what it writes, and the struct that C has of it, differ.
    fn rewrite_lines(self, input: &[u8], out: &mut [u8]) -> Rewritten
        requires { good self ≡ true }
        ensures { rewriting result out.new ≡ pieces_of rewrite_lines self input.now out.old }
    {
        let mut r = self;
        let mut at: usize = 0;
        let mut used: usize = 0;
        while at < input.len() {
            let t = r.rewrite_first(&input[at..], &mut out[used..]);
            if t.taken == 0 {
                return rewritten(t.refusal, r, at, used, t.line);
            }
            r = t.next;
            at += t.taken;
            used += t.written;
        }
        rewritten(0, r, at, used, 0)
    }
}
