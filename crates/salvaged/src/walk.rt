// What a log falls into, printed from left to right.
ghost use Rattle.std.specs.Prelude.{◌≡◌, true, map, ◌%◌, ◌<◌, ◌≤◌, length, drop};
ghost use Rattle.wire.specs.Line.{size_by};
ghost use Rattle.choosing.specs.Pieces.{picked, pieces};
ghost use Rattle.salvage.specs.Picking.{most_words, valid_by, starts_by};
ghost use Rattle.listing.proofs.Few.{ShortGiven};
ghost use Rattle.salvaged.specs.Items.{item_of, items_in, items_beside};
ghost use Rattle.salvaged.specs.Listing.{lines_of, item_line};
ghost use Rattle.salvaged.specs.Writing.{start, add_all};
ghost use Rattle.salvaged.specs.Promises.{whole, told};
ghost use Rattle.salvaged.specs.Walk.{Adds, AddsLeft, lines_in, Words, RunOf, five_in, Here, Stepped};

use crate::{Salvaged, Step, lines};
use listing::Item;

fn reached(at: usize, left: usize, told: Salvaged) -> Step
    ensures { result ≡ record { at = at; left = left; told = told } }
{
    Step { at, left, told }
}

// The byte of a word.
fn byte(word: u16) -> u8
    ensures { result ≡ word % 256 }
{
    (word % 256) as u8
}

// The bytes of the run at the front, and 0 in the places behind them.
fn five(size: usize, words: &[u16]) -> [u8; 5]
    requires { RunOf size words.now }
    ensures { result ≡ five_in size words.now }
{
    let a = byte(words[0]);
    let b = byte(words[1]);
    let c = byte(words[2]);
    if size == 3 {
        return [a, b, c, 0, 0];
    }
    [a, b, c, byte(words[3]), byte(words[4])]
}

// The report of the run that starts at a place.
fn report(letter: u8, size: usize, words: &[u16], at: usize) -> Item
    requires { Words letter size words.now × (at < length words.now) × (starts_by letter (drop at words.now) ≡ true) }
    ensures { result ≡ item_of letter words.now (picked at) }
{
    let bytes = five(size, &words[at..]);
    let line = at + size + 1;
    Item::reported(letter, line as u32, wire::report_of(letter, bytes))
}

// The bytes left out right before a place, if any.
fn left_out(told: Salvaged, at: usize, left: usize, out: &mut [u8]) -> Salvaged
    requires { (left ≤ at) × (at ≤ most_words) }
    ensures { AddsLeft at left told out.old result out.new }
{
    if left == 0 {
        return told;
    }
    let first = at - left;
    let line = first + left + 1;
    lines::item(told, Item::D(line as u32, left as u16), out)
}

// A run that starts at the place, a byte left out, or a 256 or 257.
fn step(letter: u8, size: usize, words: &[u16], s: Step, out: &mut [u8]) -> Step
    requires { Words letter size words.now × Here words.now s.at s.left }
    ensures { Stepped letter words.now s.at s.left s.told out.old result out.new }
{
    let at = s.at;
    let left = s.left;
    let told = s.told;
    if salvage::starts(letter, &words[at..]) {
        let before = left_out(told, at, left, out);
        let found = report(letter, size, words, at);
        return reached(at + size, 0, lines::item(before, found, out));
    }
    if words[at] <= 255 {
        return reached(at + 1, left + 1, told);
    }
    reached(at + 1, 0, left_out(told, at, left, out))
}

// The words, from the first to the last. A step is a run or a word, which no `for` takes.
fn walk(letter: u8, size: usize, words: &[u16], told: Salvaged, out: &mut [u8]) -> Salvaged
    requires { Words letter size words.now }
    ensures { Adds (lines_in letter words.now (pieces (size_by letter) (valid_by letter) words.now)) told out.old result out.new }
{
    let mut s = reached(0, 0, told);
    while s.at < words.len() {
        s = step(letter, size, words, s, out);
    }
    left_out(s.told, s.at, s.left, out)
}

// What stands alone, or what the words fall into and then `H` and 0.
fn items(letter: u8, alone: Option<Item>, words: &[u16], told: Salvaged, out: &mut [u8]) -> Salvaged
    requires { (length words.now ≤ most_words) × ShortGiven alone }
    ensures { Adds (map item_line (items_beside alone (items_in letter words.now))) told out.old result out.new }
{
    match alone {
        None => {
            let all = walk(letter, wire::size(letter), words, told, out);
            lines::item(all, Item::H(0), out)
        }
        Some(item) => lines::item(told, item, out),
    }
}

// The listing, behind its first line.
pub(crate) fn print(letter: u8, alone: Option<Item>, words: &[u16], out: &mut [u8]) -> Salvaged
    requires { (length words.now ≤ most_words) × ShortGiven alone }
    ensures { whole result out.new ≡ told (add_all (length out.old) start (lines_of (items_beside alone (items_in letter words.now)))) out.old }
{
    let nothing = Salvaged {
        written: 0,
        whole: true,
    };
    let opened = lines::add(nothing, listing::salvage_opening(), out);
    items(letter, alone, words, opened, out)
}
