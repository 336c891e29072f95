// mtable: a listing on standard input, as a table on standard output: comma separated, a head line, a first row that says
// so where the listing is a salvage's, a row for each item, and a last row that tells the end or a fault and its line.
#![tactic(auto)]

ghost use Rattle.std.specs.Prelude.{ℕ, ◌+◌, ◌*◌, ◌≤◌, ◌<◌, ◌≡◌, true, List, [], length, take, is_ok};
ghost use Rattle.shell.specs.Outside.{Trace, Handed, Said};
ghost use Rattle.shell.specs.Standing.{Stands, Closes, Ends};
ghost use Rattle.text.specs.Growth.{capacity, shown, grown_by, text_of};
ghost use Rattle.listing.specs.declared.Buttons.{Buttons};
ghost use Rattle.listing.specs.declared.Item.{Item};
ghost use Rattle.readback.specs.Steps.{good};
ghost use Rattle.readback.specs.Pieces.{longest};
ghost use Rattle.readback.specs.Held.{Ready};
ghost use Rattle.mtable.specs.Table.{commas, cell_of, digit_of, is_unknown, is_down, middle_of, buttons_of, row_of, rows_of, salvage_row, last_row, fault_words};
ghost use Rattle.mtable.specs.Program.{mtable};
ghost use Rattle.mtable.specs.Rows.{Stand, Five, Among, Written};
ghost use Rattle.mtable.specs.Blocks.{rest, tells, end_line, Leaves};

use readback::Readback;
use shell::{Failure, System};
use text::Text;

// How far the table has come: the reader, and how many bytes of a line that is not whole yet are held.
#[derive(Clone, Copy, Drop)]
struct Place {
    reader: Readback,
    held: usize,
}

// What a block leaves: more is to be read, or the listing is over, or there is a fault at a line.
#[derive(Clone, Copy, Drop)]
enum Next {
    More(Place),
    Over(Place),
    Fault(u32),
}

// Bytes behind a text.
fn words(text: Text, bytes: &[u8]) -> Text
    ensures { result ≡ grown_by text bytes.now }
{
    let mut r = text;
    for b in bytes {
        r = r.with(*b);
    }
    r
}

// A number behind a comma.
fn cell(row: Text, x: i32) -> Text
    ensures { result ≡ grown_by row (cell_of x) }
{
    row.with(b',').decimal(1, x as i64)
}

// Commas for cells that are left empty.
fn empty(row: Text, count: usize) -> Text
    ensures { result ≡ grown_by row (commas count) }
{
    let mut r = row;
    for k in 0..count {
        r = r.with(b',');
    }
    r
}

// A button: 1 where it is down, else 0.
fn digit(down: bool) -> u8
    ensures { result ≡ digit_of down }
{
    if down { b'1' } else { b'0' }
}

// The buttons of a number.
fn left_of(buttons: i32) -> bool
    ensures { (b : Buttons) → Stand buttons b → result ≡ b.left }
{
    matches!(buttons, 4 | 5 | 6 | 7 | 12 | 13)
}

fn right_of(buttons: i32) -> bool
    ensures { (b : Buttons) → Stand buttons b → result ≡ b.right }
{
    matches!(buttons, 1 | 3 | 5 | 7 | 9 | 13)
}

fn down_of(buttons: i32) -> bool
    ensures { (b : Buttons) → Stand buttons b → result ≡ is_down b.middle }
{
    matches!(buttons, 2 | 3 | 6 | 7)
}

fn unknown_of(buttons: i32) -> bool
    ensures { (b : Buttons) → Stand buttons b → result ≡ is_unknown b.middle }
{
    matches!(buttons, 8 | 9 | 12 | 13)
}

// The middle button: `?` where it is not known.
fn middle_of(buttons: i32) -> u8
    ensures { (b : Buttons) → Stand buttons b → result ≡ middle_of b.middle }
{
    if unknown_of(buttons) {
        b'?'
    } else {
        digit(down_of(buttons))
    }
}

// The three buttons, each in a cell of its own.
fn pressed(row: Text, buttons: i32) -> Text
    ensures { (b : Buttons) → Stand buttons b → result ≡ grown_by row (buttons_of b) }
{
    row.with(b',')
        .with(digit(left_of(buttons)))
        .with(b',')
        .with(middle_of(buttons))
        .with(b',')
        .with(digit(right_of(buttons)))
}

// The row of an item, from the five numbers that a read writes for it, as C has them too.
fn row(kind: i32, line: i32, a: i32, b: i32, c: i32) -> Text
    ensures { (i : Item) → Five kind line a b c i → result ≡ text_of (row_of i) }
{
    let none = Text::none();
    match kind {
        1 => empty(cell(cell(pressed(cell(none.with(b'R'), line), a), b), c), 1),
        2 => cell(empty(cell(none.with(b'D'), line), 5), a),
        3 => cell(empty(none.with(b'H'), 6), a),
        4 => empty(cell(none.with(b'E'), line), 6),
        _ => empty(
            none.with(b'E')
                .with(b',')
                .with(b'o')
                .with(b'v')
                .with(b'e')
                .with(b'r'),
            6,
        ),
    }
}

// The rows of so many items, five numbers each, to a buffer from a place on, and the place behind them.
fn rows(items: &[i32], count: usize, out: &mut [u8], at: usize) -> usize
    requires among { (is : List Item) × Among count items.now is }
    requires count_in_bounds { at + 40 * count ≤ length out.old }
    ensures { (is : List Item) → Among count items.now is → Written out.old at (rows_of is) out.new result }
{
    let mut to = at;
    for i in 0..count {
        let from = 5 * i;
        let line = row(
            items[from],
            items[from + 1],
            items[from + 2],
            items[from + 3],
            items[from + 4],
        )
        .with(b'\n');
        line.put(out, to);
        to += line.len;
    }
    to
}

// The first row, where it is a salvage's that begins, to the front of a buffer, and the place behind it.
fn opened(begins: bool, out: &mut [u8]) -> usize
    requires { 40 ≤ length out.old }
    ensures { Written out.old 0 (salvage_row begins) out.new result × (result ≤ 40) }
{
    if !begins {
        return 0;
    }
    let first = words(Text::none(), b"salvage,,,,,,,\n");
    first.put(out, 0);
    first.len
}

// What is held and what was read: its rows are written, and the rest is held. With five places for each byte all lines are taken.
// The whole buffer comes with how much of it is filled, since what is not taken is moved to its front.
fn listed(
    system: &mut System,
    reader: Readback,
    all: usize,
    input: &mut [u8],
    items: &mut [i32],
    out: &mut [u8],
) -> Result<Next, Failure>
    requires all_in_bounds { (all ≤ length input.old) × (5 * length input.old ≤ length items.old) × (40 + 8 * length items.old ≤ length out.old) × (good reader ≡ true) }
    requires stands { Stands mtable system.old.turn (rest reader (take all input.old)) (tells reader (take all input.old)) }
    ensures leaves { (held : ℕ) → held < all → held ≤ longest → Leaves system.new.turn reader held result input.new }
{
    let before = reader.salvage == 1;
    let back = reader.read(&input[..all], items);
    let taken = back.taken;
    let left = all - taken;
    let at = opened((back.next.salvage == 1) & !before, out);
    let n = rows(items, back.items, out, at);
    system.show(b"mtable: standard output", &out[..n])?;
    if back.refusal != 0 {
        return Ok(Next::Fault(back.line));
    }
    shell::keep(input, taken, left);
    Ok(Next::More(Place {
        reader: back.next,
        held: left,
    }))
}

// A block of the listing: the bytes that were held and what a read brings.
fn block(
    system: &mut System,
    place: Place,
    input: &mut [u8],
    items: &mut [i32],
    out: &mut [u8],
) -> Result<Next, Failure>
    requires held_in_bounds { (place.held ≤ length input.old) × (5 * length input.old ≤ length items.old) × (40 + 8 * length items.old ≤ length out.old) × (longest < length input.old) }
    requires ready { Ready place.reader (take place.held input.old) }
    requires stands { Stands mtable system.old.turn (rest place.reader (take place.held input.old)) (tells place.reader (take place.held input.old)) }
    ensures leaves { Leaves system.new.turn place.reader place.held result input.new }
{
    let count = system.behind(b"mtable: standard input", input, place.held)?;
    if count == 0 {
        return Ok(Next::Over(place));
    }
    listed(system, place.reader, place.held + count, input, items, out)
}

// A row, to standard output.
fn show(system: &mut System, row: Text) -> Result<(), Failure>
    requires { row.len ≤ capacity }
    ensures { Handed mtable.output system.old.turn system.new.turn (is_ok result) (shown row) }
{
    system.show(b"mtable: standard output", &row.bytes[..row.len])
}

// A text, to standard error.
fn tell(system: &mut System, text: Text) -> Result<(), Failure>
    requires { text.len ≤ capacity }
    ensures { Said system.old.turn system.new.turn (is_ok result) (shown text) }
{
    system.say(&text.bytes[..text.len])
}

// A fault, in the last row and on standard error.
fn faulty(system: &mut System, line: u32) -> Result<(), Failure>
    requires { Closes mtable system.old.turn (last_row line) (fault_words line) × (line ≡ 0 → ⊥) }
    ensures { Ends mtable system.new.turn (is_ok result) }
{
    let none = Text::none();
    let number = line as i64;
    let last = empty(words(none, b"fault,").decimal(1, number), 6).with(b'\n');
    show(system, last)?;
    tell(
        system,
        words(none, b"mtable: a fault at line ")
            .decimal(1, number)
            .with(b'\n'),
    )
}

// The listing is over: the last row is its end, or a fault.
fn over(system: &mut System, place: Place) -> Result<(), Failure>
    requires { Closes mtable system.old.turn (last_row (end_line place)) (fault_words (end_line place)) × (good place.reader ≡ true) }
    ensures { Ends mtable system.new.turn (is_ok result) }
{
    let end = place.reader.finish(place.held);
    if end.refusal != 0 {
        return faulty(system, end.line);
    }
    system.show(b"mtable: standard output", b"end,,,,,,,\n")
}

// WHAT IS HANDED OUT IS THE TABLE OF THE LISTING, and what is told is the line of its fault.
fn whole(
    system: &mut System,
    input: &mut [u8],
    items: &mut [i32],
    out: &mut [u8],
) -> Result<(), Failure>
    requires { (5 * length input.old ≤ length items.old) × (40 + 8 * length items.old ≤ length out.old) × (longest < length input.old) × Trace system.old.turn [] [] [] }
    ensures { Ends mtable system.new.turn (is_ok result) }
{
    system.show(
        b"mtable: standard output",
        b"item,line,left,middle,right,x,y,count\n",
    )?;
    let mut place = Place {
        reader: Readback::fresh(),
        held: 0,
    };
    'every_block: loop {
        match block(system, place, input, items, out)? {
            Next::More(next) => place = next,
            Next::Over(last) => return over(system, last),
            Next::Fault(line) => return faulty(system, line),
        }
    }
}

fn main(rt: HostRuntime) {
    let mut system = System::of(rt.stdin(), rt.stdout(), rt.stderr());
    // Fixed buffers: there is no heap.
    let mut input = [0u8; 4096];
    let mut items = [0i32; 20480];
    let mut out = [0u8; 163880];
    let _ = whole(&mut system, &mut input, &mut items, &mut out);
}
