// Items to bytes, in a slice or behind a text: the rule. A line is a letter and its fields, each behind a tab.
// stamped.rt is the quick way.
ghost use Rattle.std.specs.Prelude.{◌≡◌, [], ◌∷◌, pos};
ghost use Rattle.text.specs.Decimals.{decimal_of};
ghost use Rattle.text.specs.Growth.{grown_by, text_of, slice, filled_by};
ghost use Rattle.listing.specs.Lines.{tab};
ghost use Rattle.listing.specs.Items.{items_in};
ghost use Rattle.listing.specs.Printing.{pressed, middle, three, over, form, form_of, head_of, line_of, first_letter, opening_of, all_bytes};
ghost use Rattle.listing.specs.declared.Field.TheVariants.{Number};
ghost use Rattle.listing.specs.declared.Item.TheVariants.{D, R};

use crate::{Buttons, Item, Middle};
use text::{PLAIN, Text};

// A letter where a button is down.
pub(crate) fn pressed(down: bool, letter: u8) -> u8
    ensures { result ≡ pressed down letter }
{
    if down { letter } else { b'-' }
}

pub(crate) fn middle(of: Middle) -> u8
    ensures { result ≡ middle of }
{
    match of {
        Middle::Up => b'-',
        Middle::Down => b'M',
        Middle::Unknown => b'?',
    }
}

// The buttons behind a tab.
fn three(out: &mut [u8], at: usize, buttons: Buttons) -> usize
    ensures { slice out.new result ≡ filled_by (slice out.old at) (tab ∷ three buttons) }
{
    let left = Text::byte_to(out, at, b'\t');
    let second = Text::byte_to(out, left, pressed(buttons.left, b'L'));
    let right = Text::byte_to(out, second, middle(buttons.middle));
    Text::byte_to(out, right, pressed(buttons.right, b'R'))
}

fn over(out: &mut [u8], at: usize) -> usize
    ensures { slice out.new result ≡ filled_by (slice out.old at) (tab ∷ over) }
{
    let o = Text::byte_to(out, at, b'\t');
    let v = Text::byte_to(out, o, b'o');
    let e = Text::byte_to(out, v, b'v');
    let r = Text::byte_to(out, e, b'e');
    Text::byte_to(out, r, b'r')
}

// A number behind a tab, at a width.
fn number(out: &mut [u8], at: usize, width: usize, x: i64) -> usize
    ensures { slice out.new result ≡ filled_by (slice out.old at) (tab ∷ decimal_of width x) }
{
    let behind = Text::byte_to(out, at, b'\t');
    Text::decimal_to(out, behind, width, x)
}

// The letter and the fields of bytes dropped, line numbers at a width.
fn dropped(out: &mut [u8], at: usize, width: u8, n: u32, k: u16) -> usize
    ensures { slice out.new result ≡ filled_by (slice out.old at) (head_of width (form_of (D n k))) }
{
    let first = Text::byte_to(out, at, b'D');
    let second = number(out, first, width as usize, n as i64);
    number(out, second, PLAIN, k as i64)
}

// Those of a report.
fn reported(out: &mut [u8], at: usize, width: u8, n: u32, buttons: Buttons, x: i64, y: i64) -> usize
    ensures { slice out.new result ≡ filled_by (slice out.old at) (head_of width (form_of (R n buttons x y))) }
{
    let first = Text::byte_to(out, at, b'R');
    let second = number(out, first, width as usize, n as i64);
    let third = three(out, second, buttons);
    let fourth = number(out, third, PLAIN, x);
    number(out, fourth, PLAIN, y)
}

// Those of an item.
fn fields(out: &mut [u8], at: usize, width: u8, item: Item) -> usize
    ensures { slice out.new result ≡ filled_by (slice out.old at) (head_of width (form_of item)) }
{
    match item {
        Item::D(n, k) => dropped(out, at, width, n, k),
        Item::R(n, buttons, x, y) => reported(out, at, width, n, buttons, x, y),
        Item::H(k) => {
            let first = Text::byte_to(out, at, b'H');
            number(out, first, PLAIN, k as i64)
        }
        Item::E(n) => {
            let first = Text::byte_to(out, at, b'E');
            number(out, first, width as usize, n as i64)
        }
        Item::Over => {
            let first = Text::byte_to(out, at, b'E');
            over(out, first)
        }
    }
}

// The line of an item, to a slice at a place, and the place behind it.
fn line_to(out: &mut [u8], at: usize, width: u8, item: Item) -> usize
    ensures { slice out.new result ≡ filled_by (slice out.old at) (line_of width (form_of item)) }
{
    let end = fields(out, at, width, item);
    Text::byte_to(out, end, b'\n')
}

// The line of what is given, if anything.
pub(crate) fn put(out: &mut [u8], at: usize, width: u8, given: Option<Item>) -> usize
    ensures { slice out.new result ≡ filled_by (slice out.old at) (all_bytes width (items_in given)) }
{
    match given {
        None => at,
        Some(item) => line_to(out, at, width, item),
    }
}

// The same behind a text.
pub(crate) fn printed(front: Text, width: u8, given: Option<Item>) -> Text
    ensures { result ≡ grown_by front (all_bytes width (items_in given)) }
{
    let mut bytes = front.bytes;
    let len = put(&mut bytes, front.len, width, given);
    Text { bytes, len }
}

// The line of an item.
pub(crate) fn line(item: Item, width: u8) -> Text
    ensures { result ≡ text_of (line_of width (form_of item)) }
{
    printed(Text::none(), width, Some(item))
}

// A first line: its letter, and the width of line numbers.
fn headed(letter: u8, width: u8) -> Text
    ensures { result ≡ text_of (line_of width (form letter (Number (pos width) ∷ []))) }
{
    Text::none()
        .with(letter)
        .with(b'\t')
        .decimal(PLAIN, width as i64)
        .with(b'\n')
}

// The letter that a listing begins with, or a salvage's.
fn first(salvage: bool) -> u8
    ensures { result ≡ first_letter salvage }
{
    if salvage { b'S' } else { b'L' }
}

// The line that is always printed first.
pub(crate) fn opening(salvage: bool, width: u8) -> Text
    ensures { result ≡ text_of (line_of width (opening_of salvage width)) }
{
    headed(first(salvage), width)
}
