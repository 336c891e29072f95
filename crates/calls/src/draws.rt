// Draws: numbers that look random, each told by its call and its place, and the same in C.
ghost use Rattle.std.specs.Prelude.{◌<◌};

fn turned(x: u64) -> u64 {
    let y = ((x % 2147483648) * 1103515245 + 12345) % 2147483648;
    y ^ (y / 65536)
}

// A number below a count.
pub(crate) fn drawn(call: u64, place: u64, count: u64) -> u64
    requires { 0 < count }
    ensures { result < count }
{
    turned(turned(turned(call) ^ place) ^ call) / 16 % count
}

// A length, or a place of a table, below a count.
pub(crate) fn at(call: u64, place: u64, count: u64) -> usize
    requires { 0 < count }
    ensures { result < count }
{
    drawn(call, place, count) as usize
}

pub(crate) fn byte(call: u64, place: u64, count: u64) -> u8
    requires { (0 < count) × (count < 257) }
{
    drawn(call, place, count) as u8
}

// A mark, which one time in so many is set.
pub(crate) fn mark(call: u64, place: u64, count: u64) -> bool
    requires { 0 < count }
{
    drawn(call, place, count) == 0
}

// A letter of a format, or one that is none.
pub(crate) fn letter(call: u64, place: u64) -> u8 {
    let letters = b"SVABUTWSVABUTWUX";
    letters[at(call, place, 16)]
}

// A letter of a mode, or one that is none.
pub(crate) fn mode(call: u64, place: u64) -> u8 {
    let modes = b"JKLRMQNODORORODP";
    modes[at(call, place, 16)]
}

// A byte of the host's.
pub(crate) fn host(call: u64, place: u64) -> u8 {
    let hosts = b"JKLRMQNODPSVABUTWORO ftdx5 ROOJd";
    hosts[at(call, place, 32)]
}

// Movements at the ends of what the formats and 16 bits hold, and between.
pub(crate) fn movement(call: u64, place: u64) -> i16 {
    let movements: [i16; 8] = [0, 1, -3, 127, -128, 4095, 32767, -32768];
    movements[at(call, place, 8)]
}

// Positions, of which one is none.
pub(crate) fn position(call: u64, place: u64) -> i16 {
    let positions: [i16; 8] = [0, 1, 100, 2048, 4095, 7, 8, 4096];
    positions[at(call, place, 8)]
}

// Sums near the ends of 64 bits, and between.
pub(crate) fn sum(call: u64, place: u64) -> i64 {
    let sums: [i64; 4] = [0, -70000, 9223372036854775000, -9223372036854775000];
    sums[at(call, place, 4)]
}

// Bytes of which reports of every format can be made.
fn part(i: usize) -> u8
    requires { i < 56 }
{
    let bytes =
        b"\x98\x94\x9f\x05\x03\x00\x64\x9a@lo\x05=L\xec\x14\xc0DHP\\\x81?\x03\x05\xa0\x82\x90\x80\x82\x85\x87\x07\xfa\xff\x01\x00\x01\x02\x04\x07\xc8\x80\x090127AF938E(g";
    bytes[i]
}

// Such a byte, a silence, a break, or a word that is none.
pub(crate) fn word(call: u64, place: u64) -> u16 {
    let others: [u16; 8] = [257, 257, 257, 257, 256, 256, 258, 65535];
    let i = at(call, place, 64);
    if i < 56 {
        part(i) as u16
    } else {
        others[i - 56]
    }
}
