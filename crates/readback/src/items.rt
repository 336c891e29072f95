// A line, to its item; and an item, to its five numbers.
ghost use Rattle.std.specs.Prelude.{◌≡◌, drop};
ghost use Rattle.readback.specs.Fields.{Says, alone_in};
ghost use Rattle.readback.specs.Items.{middle_at, buttons_at, middle_number, pressed_number, numbers_of, Small, dropped_in, report_in, kept_in, bad_in, item_in, width_in, WidthIs, salvage_in};

use crate::Kind;
use crate::fields::field;
use listing::{Buttons, Item, Middle};

// The middle button of a number of buttons.
fn middle_at(n: u8) -> Middle
    ensures { result ≡ middle_at n }
{
    if n >= 8 {
        Middle::Unknown
    } else if n / 2 % 2 == 1 {
        Middle::Down
    } else {
        Middle::Up
    }
}

// The buttons of their number.
fn buttons_at(n: u8) -> Buttons
    ensures { result ≡ buttons_at n }
{
    Buttons {
        left: n / 4 % 2 == 1,
        middle: middle_at(n),
        right: n % 2 == 1,
    }
}

fn middle_number(middle: Middle) -> u8
    ensures { result ≡ middle_number middle }
{
    match middle {
        Middle::Up => 0,
        Middle::Down => 2,
        Middle::Unknown => 8,
    }
}

fn counted(down: bool, value: u8) -> u8
    ensures { result ≡ Rattle.readback.specs.Items.counted down value }
{
    if down { value } else { 0 }
}

// The number of buttons.
fn pressed_number(buttons: Buttons) -> u8
    ensures { result ≡ pressed_number buttons }
{
    counted(buttons.left, 4) + middle_number(buttons.middle) + counted(buttons.right, 1)
}

// The five numbers of an item: its kind (1 R, 2 D, 3 H, 4 E, 5 E over), its line, and three values.
pub(crate) fn numbers(item: Item) -> [i32; 5]
    requires { Small item }
    ensures { result ≡ numbers_of item }
{
    match item {
        Item::R(n, buttons, x, y) => [
            1,
            n as i32,
            i32::from(pressed_number(buttons)),
            x as i32,
            y as i32,
        ],
        Item::D(n, k) => [2, n as i32, i32::from(k), 0, 0],
        Item::H(k) => [3, 0, i32::from(k), 0, 0],
        Item::E(n) => [4, n as i32, 0, 0, 0],
        Item::Over => [5, 0, 0, 0, 0],
    }
}

// The fields of `D`.
fn dropped(width: usize, line: &[u8]) -> Option<Item>
    ensures { result ≡ dropped_in width (drop 1 line.now) }
{
    let n = field(Kind::Line, width, line, 1)?;
    let k = field(Kind::Count, width, line, n.end)?;
    if (line.len() <= k.end) & (0 < k.value) {
        Some(Item::D(n.value as u32, k.value as u16))
    } else {
        None
    }
}

// The fields of `R`.
fn report(width: usize, line: &[u8]) -> Option<Item>
    ensures { result ≡ report_in width (drop 1 line.now) }
{
    let n = field(Kind::Line, width, line, 1)?;
    let b = field(Kind::Pressed, width, line, n.end)?;
    let x = field(Kind::Number, width, line, b.end)?;
    let y = field(Kind::Number, width, line, x.end)?;
    if line.len() <= y.end {
        Some(Item::R(n.value as u32, buttons_at(b.value as u8), x.value, y.value))
    } else {
        None
    }
}

// The field of a line that has no other.
fn alone(kind: Kind, width: usize, line: &[u8]) -> Option<i64>
    ensures { Says (alone_in width kind (drop 1 line.now)) result }
{
    let f = field(kind, width, line, 1)?;
    if line.len() <= f.end {
        Some(f.value)
    } else {
        None
    }
}

// The field of `H`.
fn kept(width: usize, line: &[u8]) -> Option<Item>
    ensures { result ≡ kept_in width (drop 1 line.now) }
{
    let k = alone(Kind::Count, width, line)?;
    Some(Item::H(k as u16))
}

// The field of `E`.
fn bad(width: usize, line: &[u8]) -> Option<Item>
    ensures { result ≡ bad_in width (drop 1 line.now) }
{
    match alone(Kind::Over, width, line) {
        Some(_) => Some(Item::Over),
        None => {
            let n = alone(Kind::Line, width, line)?;
            Some(Item::E(n as u32))
        }
    }
}

// The item of a line.
pub(crate) fn item(width: usize, line: &[u8]) -> Option<Item>
    ensures { result ≡ item_in width line.now }
{
    if line.len() == 0 {
        return None;
    }
    match line[0] {
        b'D' => dropped(width, line),
        b'R' => report(width, line),
        b'H' => kept(width, line),
        b'E' => bad(width, line),
        _ => None,
    }
}

// The width that the first line of a listing tells.
pub(crate) fn width(line: &[u8]) -> Option<u16>
    ensures { WidthIs (width_in line.now) result }
{
    if line.len() == 0 {
        return None;
    }
    let letter = line[0];
    if (letter == b'L') | (letter == b'S') {
        let w = alone(Kind::Count, 1, line)?;
        Some(w as u16)
    } else {
        None
    }
}

// Whether the first line of a listing is a salvage's.
pub(crate) fn salvage(line: &[u8]) -> bool
    ensures { result ≡ salvage_in line.now }
{
    line.len() > 0 && line[0] == b'S'
}
