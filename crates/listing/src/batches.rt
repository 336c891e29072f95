// Lines of words, some at a time: the quick way, proved to be the rule (feeding.rt). Their words are gathered and read
// at once, and what they give is printed.
ghost use Rattle.std.specs.Prelude.{◌≡◌, ℕ, ◌+◌, ◌*◌, ◌<◌, ◌≤◌, nat_abs, length, true, MatchOption};
ghost use Rattle.text.specs.Growth.{slice, filled_by};
ghost use Rattle.listing.specs.Scanning.{width, most_lines};
ghost use Rattle.listing.specs.Items.{items_in};
ghost use Rattle.listing.specs.Printing.{all_bytes};
ghost use Rattle.listing.specs.Feeding.{passed_to, Stands};
ghost use Rattle.listing.specs.Stamped.{Stamps};
ghost use Rattle.listing.specs.Batches.{Gathered, Unread, Printed, ToldOf, items_over, plain_of, report_at, given_at, next_at};
ghost use Rattle.listing.specs.declared.Item.TheVariants.{R};

use crate::feeding::passed;
use crate::scanning::most_lines;
use crate::{Buttons, Front, Stamp, items, lines, stamped};
use reader::Reader;
use wire::SILENCE;

// How many lines are taken at once.
const MANY: usize = 32;

// The places that the text of a line has room in.
const ROOM: usize = 40;

// How many words were gathered, and the place behind their lines.
#[derive(Clone, Copy, Drop)]
struct Batch {
    count: usize,
    end: usize,
}

// The words of the lines from a place of a piece on, so many at most, to the front of a slice: up to a line that is no word's, lies not whole in the piece, or is
// a second silence in a row.
fn gathered(input: &[u8], from: usize, most: usize, words: &mut [u16]) -> Batch
    requires { (from ≤ length input.now) × (most ≤ length words.old) }
    ensures { Gathered input.now from words.new result.count result.end × (result.count ≤ most) × (result.end ≤ length input.now) }
{
    let mut end = from;
    let mut last = 0;
    for count in 0..most {
        match lines::word_in(input, end) {
            Some(told) if told.word != SILENCE || last != SILENCE => {
                words[count] = told.word;
                last = told.word;
                end += told.taken;
            }
            _ => return Batch { count, end },
        }
    }
    Batch { count: most, end }
}

// How many lines may be taken at once, of so many, with so many places: each has room for its text.
fn at_once(lines: u32, room: usize) -> usize
    ensures { (result ≤ 32) × (result ≤ lines) × (40 * result ≤ room) }
{
    (room / ROOM).min(MANY).min(lines as usize)
}

// A number that is not negative; any other counts as 0.
fn plain(number: i16) -> u16
    ensures { result ≡ plain_of number }
{
    number.max(0) as u16
}

// The buttons, x and y of a report told at a place.
#[derive(Clone, Copy, Drop)]
struct Movement {
    buttons: Buttons,
    x: i64,
    y: i64,
}

fn moved(letter: u8, told: &[i16], from: usize) -> Movement
    requires { from + 6 ≤ length told.now }
    ensures { ((n : ℕ) → R n result.buttons result.x result.y ≡ report_at letter n told.now from) × (nat_abs result.x < 100000) × (nat_abs result.y < 100000) }
{
    Movement {
        buttons: items::buttons(letter, plain(told[from + 1])),
        x: items::sum(told[from + 2], told[from + 4]),
        y: items::sum(told[from + 3], told[from + 5]),
    }
}

// What the numbers at a place tell of the word of a line, which has a stamp, printed to a slice at a place, and the place behind it.
fn answer_to(
    out: &mut [u8],
    at: usize,
    letter: u8,
    stamp: Stamp,
    told: &[i16],
    from: usize,
) -> usize
    requires { (at + 40 ≤ length out.old) × (from + 6 ≤ length told.now) }
    ensures { ((n : ℕ) → Stamps n stamp → n ≤ most_lines → slice out.new result ≡ filled_by (slice out.old at) (all_bytes width (items_in (given_at letter n told.now from)))) × (result ≤ at + 40) }
{
    let number = told[from];
    if number > 0 {
        return stamped::dropped(out, at, stamp, plain(number));
    }
    if number < 0 {
        let m = moved(letter, told, from);
        return stamped::reported(out, at, stamp, m.buttons, m.x, m.y);
    }
    at
}

// The place of the next word's numbers.
fn next_at(told: &[i16], from: usize) -> usize
    requires { from + 6 ≤ length told.now }
    ensures { result ≡ next_at told.now from }
{
    if told[from] < 0 { from + 6 } else { from + 1 }
}

// What words give whose lines stand behind others, by what they were answered by, printed one behind the other: each line has its places.
fn shown(line: u32, reader: Reader, words: &[u16], told: &[i16], out: &mut [u8], at: usize) -> usize
    requires { ToldOf reader words.now told.now × (6 * length words.now ≤ length told.now) × (line + length words.now ≤ most_lines) × (at + 40 * length words.now ≤ length out.old) }
    ensures { slice out.new result ≡ filled_by (slice out.old at) (all_bytes width (items_over reader line words.now)) }
{
    let letter = reader.format;
    let mut stamp = stamped::stamp_of(line);
    let mut from = 0;
    let mut used = at;
    for n in line..line + words.len() as u32 {
        stamp = stamped::next(stamp, n + 1);
        used = answer_to(out, used, letter, stamp, told, from);
        from = next_at(told, from);
    }
    used
}

// What words left: the reader behind them, and the place behind what they give.
#[derive(Clone, Copy, Drop)]
pub(crate) struct Printing {
    next: Reader,
    used: usize,
}

// Words whose lines stand behind others, read at once, and what they give printed to a slice at a place: all of them, or none. What they are answered by is told in
// numbers, six at most for each.
fn printed(
    line: u32,
    reader: Reader,
    words: &[u16],
    told: &mut [i16],
    out: &mut [u8],
    at: usize,
) -> Option<Printing>
    requires { (0 < length words.now) × (6 * length words.now ≤ length told.old) × (line + length words.now ≤ most_lines) × (at + 40 * length words.now ≤ length out.old) }
    ensures { MatchOption result (out.new ≡ out.old) (λ p. Printed reader line words.now out.old at true p.next p.used out.new) }
{
    let t = reader.answers(words, told);
    if t.taken == words.len() {
        Some(Printing {
            next: t.next,
            used: shown(line, reader, words, told, out, at),
        })
    } else {
        None
    }
}

// Lines of silences: how many, and the place behind them.
#[derive(Clone, Copy, Drop)]
struct Silences {
    count: u32,
    end: usize,
}

// The lines of silences from a place of a piece on, so many at most. To a reader that has no bytes and awaits nothing they change nothing, and are passed unread.
fn unread(reader: Reader, input: &[u8], from: usize, most: u32, room: usize) -> Silences
    requires { from ≤ length input.now }
    ensures { Unread reader input.now from room result.count result.end × (result.count ≤ most) × (result.end ≤ length input.now) }
{
    let mut end = from;
    if reader.count != 0 || reader.awaiting || room < ROOM {
        return Silences { count: 0, end };
    }
    for count in 0..most {
        match lines::word_in(input, end) {
            Some(told) if told.word == SILENCE => end += told.taken,
            _ => return Silences { count, end },
        }
    }
    Silences { count: most, end }
}

// The lines of words at the front of a piece, behind some lines: some at a time, as long as any text has room.
pub(crate) fn words(line: u32, reader: Reader, input: &[u8], out: &mut [u8]) -> Front
    requires { 0 < line }
    ensures { Stands (passed_to line reader) input.now out.old result.next result.taken result.used out.new }
{
    let most = most_lines();
    let mut n = line;
    let mut r = reader;
    let mut at: usize = 0;
    let mut used: usize = 0;
    let mut words = [0u16; 32];
    let mut told = [0i16; 192];
    // A turn takes as many lines as its batch and the silences behind it have, so it is no `for`.
    while n < most {
        let b = gathered(input, at, at_once(most - n, out.len() - used), &mut words);
        if b.count == 0 {
            break;
        }
        let Some(t) = printed(n, r, &words[..b.count], &mut told, out, used) else {
            break;
        };
        r = t.next;
        used = t.used;
        n += b.count as u32;
        let q = unread(r, input, b.end, most - n, out.len() - used);
        n += q.count;
        at = q.end;
    }
    passed(n, r, at, used)
}
