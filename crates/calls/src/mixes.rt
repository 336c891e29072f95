// One number for all that a call gives back, in which each of its numbers has its place.
use reader::Reader;

pub(crate) fn number(h: u64, v: u64) -> u64 {
    let high = ((h % 2147483647) * 31 + v / 4294967296) % 2147483647;
    (high * 31 + v % 4294967296) % 2147483647
}

pub(crate) fn byte(h: u64, v: u8) -> u64 {
    number(h, v as u64)
}

// How far a number is from 0, or from -1 where it is below 0.
fn distance(v: i64) -> u64 {
    if v < 0 {
        v.unsigned_abs() - 1
    } else {
        v.unsigned_abs()
    }
}

// By its sign and its distance.
pub(crate) fn long(h: u64, v: i64) -> u64 {
    number(number(h, (v < 0) as u64), distance(v))
}

pub(crate) fn signed(h: u64, v: i16) -> u64 {
    long(h, v as i64)
}

pub(crate) fn bytes(h: u64, v: &[u8]) -> u64 {
    v.iter().fold(h, |sum, b| byte(sum, *b))
}

pub(crate) fn numbers(h: u64, v: &[i16]) -> u64 {
    v.iter().fold(h, |sum, n| signed(sum, *n))
}

pub(crate) fn reader(h: u64, r: Reader) -> u64 {
    byte(
        byte(bytes(byte(h, r.format), &r.kept), r.count),
        r.awaiting as u8,
    )
}
