// The lines of a piece of a listing, one after the other, and their items to a lent slice.
ghost use Rattle.std.specs.Prelude.{◌≡◌, true, ◌++◌, ◌<◌, ◌≤◌, length, drop};
ghost use Rattle.readback.specs.Items.{Small, numbers_of};
ghost use Rattle.readback.specs.Steps.{good};
ghost use Rattle.readback.specs.Pieces.{back, whole, read_lines, pieces_of};
ghost use Rattle.readback.specs.Parts.{Fronts, Begins};
ghost use Rattle.readback.specs.Promises.{FreshPromise, ReadPromise, FinishPromise};

use crate::items::numbers;
use crate::{Back, FAULTY_LINE, Faulty, Front, Readback};
use listing::Item;
use wire::BAD_STATE;

// The bytes of the longest line, without its newline.
const LONGEST: usize = 26;

// The five numbers of an item, to the front of a slice.
fn put(out: &mut [i32], item: Item)
    requires { Small item × (5 ≤ length out.old) }
    ensures { out.new ≡ numbers_of item ++ drop 5 out.old }
{
    out[..5].copy_from_slice(&numbers(item));
}

fn back(refusal: u8, next: Readback, taken: usize, items: usize, line: u32) -> Back
    ensures { result ≡ back refusal next taken items line }
{
    Back {
        refusal: refusal,
        line: line,
        taken: taken,
        items: items,
        next: next,
    }
}

impl Readback {
    // Before the first line.
    pub fn fresh() -> Readback
        ensures { FreshPromise result }
    {
        Readback {
            width: 0,
            ended: 0,
            salvage: 0,
            last: 0,
            lines: 0,
        }
    }

    // A piece of a listing, and its items to a lent slice. It takes whole lines, and stops before an item that has no room and before a faulty line.
    pub fn read(self, input: &[u8], out: &mut [i32]) -> Back
        ensures { ReadPromise self input.now out.old result out.new }
    {
        if !self.good() {
            return back(BAD_STATE, self, 0, 0, 0);
        }
        self.lines(input, out)
    }

    // The end of the listing, of which so many bytes are left that were not taken.
    pub fn finish(self, left: usize) -> Back
        ensures { FinishPromise self left result }
    {
        if !self.good() {
            return back(BAD_STATE, self, 0, 0, 0);
        }
        if (self.ended == 1) & (left == 0) {
            return back(0, self, 0, 0, 0);
        }
        back(FAULTY_LINE, self, 0, 0, self.lines + 1)
    }

    // The line at the front of a piece: none where it is not whole yet, and faulty where it may not stand there or is longer than any.
    #[inline(always)]
    pub(crate) fn front(self, input: &[u8]) -> Result<Option<Front>, Faulty>
        requires { (good self ≡ true) × (0 < length input.now) }
        ensures { Fronts self input.now result }
    {
        let n = text::length_to(input, b'\n');
        if n == input.len() {
            return if n <= LONGEST { Ok(None) } else { Err(Faulty) };
        }
        match self.step(&input[..n]) {
            Some(line) => Ok(Some(Front {
                next: line.next,
                given: line.given,
                taken: n + 1,
            })),
            None => Err(Faulty),
        }
    }

    // The first line of a piece, and its item to the front of the places that are left.
    fn first(self, input: &[u8], out: &mut [i32]) -> Back
        requires { (good self ≡ true) × (0 < length input.now) }
        ensures { Begins self input.now out.old result out.new }
    {
        let Ok(front) = self.front(input) else {
            return back(FAULTY_LINE, self, 0, 0, self.lines + 1);
        };
        let Some(line) = front else {
            return back(0, self, 0, 0, 0);
        };
        match line.given {
            None => back(0, line.next, line.taken, 0, 0),
            Some(item) => {
                if out.len() < 5 {
                    return back(0, self, 0, 0, 0);
                }
                put(out, item);
                back(0, line.next, line.taken, 1, 0)
            }
        }
    }

    // The lines, one after the other. The loop moves on by what was taken: a line takes as many bytes and writes as many as it finds, and both counts are given back; two slices that shrink would be counted beside it.
    fn lines(self, input: &[u8], out: &mut [i32]) -> Back
        requires { good self ≡ true }
        ensures { whole result out.new ≡ pieces_of read_lines self input.now out.old }
    {
        let mut r = self;
        let mut at: usize = 0;
        let mut used: usize = 0;
        let mut items: usize = 0;
        while at < input.len() {
            let t = r.first(&input[at..], &mut out[used..]);
            if t.taken == 0 {
                return back(t.refusal, r, at, items, t.line);
            }
            r = t.next;
            at += t.taken;
            used += 5 * t.items;
            items += t.items;
        }
        back(0, r, at, items, 0)
    }
}
