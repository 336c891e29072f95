// What one byte does, and what a wait and a loss do.
ghost use Rattle.std.specs.Prelude.{◌≡◌};
ghost use Rattle.port.specs.Marks.{cleared, heard, plain, behind_mark, byte_of, quiet_of, lost_of};

use crate::{Heard, Port};
use wire::{BREAK, SILENCE};

// A byte of the line, without bit 7 where the port clears it.
#[tactic(auto, using(numbers::proofs::Rows::number_low), unfolding(crate::specs::Marks::cleared))]
fn cleared(clears: u8, b: u8) -> u8
    ensures { result ≡ cleared clears b }
{
    if clears == 0 { b } else { b % 128 }
}

// A byte has come: so much of a mark is held, and the time of a silence starts again.
fn heard(held: u8, port: Port, given: Option<u16>) -> Heard
    ensures { result ≡ heard held port given }
{
    let next = Port {
        held,
        left: port.silence,
        ..port
    };
    Heard { next, given }
}

// A byte of the line.
fn sound(port: Port, b: u8) -> Heard
    ensures { result ≡ heard 0 port (Some (cleared port.clears b)) }
{
    heard(0, port, Some(u16::from(cleared(port.clears, b))))
}

// A byte where no mark is held.
#[tactic(auto, unfolding(crate::specs::Marks::plain))]
fn plain(port: Port, b: u8) -> Heard
    ensures { result ≡ plain port b }
{
    match b {
        255 => heard(1, port, None),
        _ => sound(port, b),
    }
}

// The byte behind FF.
#[tactic(auto, unfolding(crate::specs::Marks::behind_mark))]
fn behind(port: Port, b: u8) -> Heard
    ensures { result ≡ behind_mark port b }
{
    match b {
        255 => sound(port, 255),
        0 => heard(2, port, None),
        1..=254 => heard(0, port, Some(BREAK)),
    }
}

#[tactic(auto, unfolding(crate::specs::Marks::byte_of))]
pub(crate) fn byte_of(port: Port, b: u8) -> Heard
    ensures { result ≡ byte_of port b }
{
    match port.held {
        0 => plain(port, b),
        1 => behind(port, b),
        _ => heard(0, port, Some(BREAK)),
    }
}

pub(crate) fn lost_of(port: Port) -> Heard
    ensures { result ≡ lost_of port }
{
    heard(port.held, port, Some(BREAK))
}

#[tactic(auto, unfolding(crate::specs::Marks::quiet_of))]
pub(crate) fn quiet_of(port: Port, wait: u32) -> Heard
    ensures { result ≡ quiet_of port wait }
{
    if port.left == 0 {
        Heard {
            next: port,
            given: None,
        }
    } else if wait < port.left {
        let next = Port {
            left: port.left - wait,
            ..port
        };
        Heard { next, given: None }
    } else {
        let next = Port {
            held: 0,
            left: 0,
            ..port
        };
        Heard {
            next,
            given: Some(SILENCE),
        }
    }
}
