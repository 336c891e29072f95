// Text by value: bytes one behind the other (growth), and numbers as decimals (decimals); and where a byte stands.
#![tactic(auto)]

ghost use Rattle.text.specs.Promises.{LengthToPromise};

mod decimals;
mod growth;

pub use decimals::number;

// The width of numbers that have no leading zeros.
pub const PLAIN: usize = 1;

// The bytes of a text are its first len: 40 bytes beside their number, since a text is passed by value and no heap is used.
#[derive(Clone, Copy, Drop)]
pub struct Text {
    pub bytes: [u8; 40],
    pub len: usize,
}

// The bytes in front of the first that is this one, or all where none is.
pub fn length_to(bytes: &[u8], stop: u8) -> usize
    ensures { LengthToPromise bytes.now stop result }
{
    bytes.iter().position(|b| *b == stop).unwrap_or(bytes.len())
}
