// What a line of events says.
ghost use Rattle.std.specs.Prelude.{◌≡◌};
ghost use Rattle.text.specs.Decimals.{plain, number_in};
ghost use Rattle.driver.specs.Lines.{alone_in, format_in, UpTo, buttons_in, host_in, slots_in, motion_of, motion_in, with_fields, said_by};

use crate::{MOST_LINES, Order};
use ballbox::Event;
use text::{PLAIN, number};

// The ends of a movement.
const LEAST: i64 = -32_768;

const MOST: i64 = 32_767;

// A line of one letter.
fn alone(a: u8) -> Order
    ensures { result ≡ alone_in a }
{
    match a {
        b'P' => Order::Single(Event::Period),
        b'T' => Order::Single(Event::Latch),
        b'S' => Order::Single(Event::Send),
        _ => Order::Bad,
    }
}

// A letter of the table, and no more.
fn format(bytes: &[u8]) -> Order
    ensures { result ≡ format_in bytes.now }
{
    if bytes.len() == 1 {
        let c = bytes[0];
        if wire::known(c) {
            return Order::Format(c);
        }
    }
    Order::Bad
}

// A number that is 0 or more and at most a bound.
fn up_to(bound: u32, bytes: &[u8]) -> Option<u32>
    ensures { UpTo bound (number_in plain bytes.now) result }
{
    match number(bytes, PLAIN) {
        None => None,
        Some(x) => if (x < 0) | (i64::from(bound) < x) {
            None
        } else {
            Some(x as u32)
        },
    }
}

fn buttons(bytes: &[u8]) -> Order
    ensures { result ≡ buttons_in bytes.now }
{
    match up_to(255, bytes) {
        None => Order::Bad,
        Some(n) => Order::Single(Event::Buttons(n as u8)),
    }
}

fn host(bytes: &[u8]) -> Order
    ensures { result ≡ host_in bytes.now }
{
    match up_to(255, bytes) {
        None => Order::Bad,
        Some(n) => Order::Single(Event::Host(n as u8)),
    }
}

fn slots(bytes: &[u8]) -> Order
    ensures { result ≡ slots_in bytes.now }
{
    match up_to(MOST_LINES, bytes) {
        None => Order::Bad,
        Some(n) => Order::Slots(n),
    }
}

// Two numbers of 16 bits.
fn motion_of(x: Option<i64>, y: Option<i64>) -> Order
    ensures { result ≡ motion_of x y }
{
    match x {
        None => Order::Bad,
        Some(dx) => match y {
            None => Order::Bad,
            Some(dy) => if (dx < LEAST) | (MOST < dx) | ((dy < LEAST) | (MOST < dy)) {
                Order::Bad
            } else {
                Order::Single(Event::Motion(dx as i16, dy as i16))
            },
        },
    }
}

// Up to the next tab, and behind it.
fn motion(bytes: &[u8]) -> Order
    ensures { result ≡ motion_in bytes.now }
{
    let n = text::length_to(bytes, b'\t');
    if n >= bytes.len() {
        return Order::Bad;
    }
    let start = n + 1;
    motion_of(number(&bytes[0..n], PLAIN), number(&bytes[start..], PLAIN))
}

// A letter and what stands behind its tab.
fn with_fields(a: u8, bytes: &[u8]) -> Order
    ensures { result ≡ with_fields a bytes.now }
{
    match a {
        b'F' => format(bytes),
        b'M' => motion(bytes),
        b'N' => buttons(bytes),
        b'C' => host(bytes),
        b'S' => slots(bytes),
        _ => Order::Bad,
    }
}

// What a line says.
pub(crate) fn said_by(line: &[u8]) -> Order
    ensures { result ≡ said_by line.now }
{
    if line.len() == 0 {
        return Order::Bad;
    }
    if line.len() == 1 {
        return alone(line[0]);
    }
    if line[1] == b'\t' {
        return with_fields(line[0], &line[2..]);
    }
    Order::Bad
}
