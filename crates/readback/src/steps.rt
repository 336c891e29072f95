// A line in its place: what it does to a reader of listings.
ghost use Rattle.std.specs.Prelude.{◌≡◌, true};
ghost use Rattle.readback.specs.Steps.{width_known, last_behind, above, closes, told, opens, passes, step_of, besides, good};

use crate::rewriting::most;
use crate::{Passed, Readback, items};
use listing::Item;

// Whether listings of this width are read.
fn width_known(width: u16) -> bool
    ensures { result ≡ width_known width }
{
    matches!(width, 4 | 6)
}

// The last line number behind an item.
fn last_behind(last: u32, item: Item) -> u32
    ensures { result ≡ last_behind last item }
{
    match item.line_number() {
        Some(n) => n,
        None => last,
    }
}

// Whether the number of an item's line, if it has one, is above the last.
fn above(last: u32, item: Item) -> bool
    ensures { result ≡ above last item }
{
    match item.line_number() {
        Some(n) => last < n,
        None => true,
    }
}

// Whether an item is the last of its listing.
fn closes(item: Item) -> bool
    ensures { result ≡ closes item }
{
    !matches!(item, Item::R(..) | Item::D(..))
}

// The lines besides those that have numbers of their own.
fn besides(ended: bool) -> u32
    ensures { result ≡ besides ended }
{
    if ended { 2 } else { 1 }
}

impl Readback {
    // Whether it keeps its rules.
    pub(crate) fn good(self) -> bool
        ensures { result ≡ good self }
    {
        if self.lines == 0 {
            return (self.width == 0) & (self.last == 0) & (self.ended == 0) & (self.salvage == 0);
        }
        if !width_known(self.width as u16) {
            return false;
        }
        if self.last > most(self.width) {
            return false;
        }
        let more = besides(self.ended == 1);
        ((more <= self.lines) & (self.lines <= self.last + more))
            & ((self.ended <= 1) & (self.salvage <= 1))
    }

    // The first line.
    fn opens(self, salvage: bool, width: u16) -> Option<Passed>
        ensures { told self result ≡ opens self salvage width }
    {
        if !width_known(width) {
            return None;
        }
        Some(Passed {
            next: Readback {
                width: width as u8,
                ended: 0,
                salvage: u8::from(salvage),
                last: 0,
                lines: 1,
            },
            given: None,
        })
    }

    // A line behind the first, of which an item was read.
    fn passes(self, item: Item) -> Option<Passed>
        requires { good self ≡ true }
        ensures { told self result ≡ passes self item }
    {
        if !above(self.last, item) {
            return None;
        }
        Some(Passed {
            next: Readback {
                width: self.width,
                ended: u8::from(closes(item)),
                salvage: self.salvage,
                last: last_behind(self.last, item),
                lines: self.lines + 1,
            },
            given: Some(item),
        })
    }

    // A line without its newline; none where it may not stand there.
    pub(crate) fn step(self, line: &[u8]) -> Option<Passed>
        requires { good self ≡ true }
        ensures { told self result ≡ step_of self line.now }
    {
        if self.ended == 1 {
            return None;
        }
        if self.lines == 0 {
            let width = items::width(line)?;
            return self.opens(items::salvage(line), width);
        }
        let item = items::item(usize::from(self.width), line)?;
        self.passes(item)
    }
}
