// Signed movements as the wire has them: a magnitude and a sign, and two's complement made of the two.
ghost use Rattle.std.specs.Prelude.{◌≡◌, ◌⊎◌, ◌+◌, ◌^◌, ◌≤◌, ◌<◌, nat_abs};
ghost use Rattle.std.specs.Int.Signed.{mag};
ghost use Rattle.numbers.specs.Signed.{twos, untwos, signed};

// A magnitude under its sign.
#[tactic(auto, unfolding(numbers::specs::Signed::signed))]
#[inline(always)]
pub(crate) fn joined(positive: bool, magnitude: u16) -> i16
    requires { magnitude < 4096 }
    ensures { result ≡ signed positive magnitude }
{
    let m = magnitude as i16;
    if positive { m } else { -m }
}

// How far a movement goes, whatever its sign: `unsigned_abs` costs the encoder nine instructions more for a byte of two's complement.
#[inline(always)]
pub(crate) fn magnitude(v: i16) -> u16
    requires { mag v < 4096 }
    ensures { result ≡ nat_abs v }
{
    if v < 0 { (-v) as u16 } else { v as u16 }
}

// A movement from -half to half - 1 in two's complement.
#[inline(always)]
pub(crate) fn wrapped(v: i16, half: u16) -> u16
    requires { (mag v < half) × (half ≤ 2048) }
    ensures { result ≡ twos half v }
{
    if v < 0 {
        half + half - magnitude(v)
    } else {
        magnitude(v)
    }
}

// The movement that a number below 2 * half stands for: half more and half less, which turns the highest of its bits over.
#[inline(always)]
pub(crate) fn unwrapped(n: u16, half: u16) -> i16
    requires { (n < half + half) × ((half ≡ 2 ^ 7) ⊎ (half ≡ 2 ^ 11)) }
    ensures { result ≡ untwos half n }
{
    (n ^ half) as i16 - half as i16
}
