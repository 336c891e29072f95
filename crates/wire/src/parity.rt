// The parity bit of the Bit Pad formats.
ghost use Rattle.std.specs.Prelude.{◌≡◌, ◌<◌};
ghost use Rattle.numbers.specs.Parity.{even, evened};

// Whether the count of ones is even.
#[inline(always)]
pub(crate) fn is_even(b: u8) -> bool
    ensures { result ≡ even b }
{
    u32::count_ones(b as u32) % 2 == 0
}

// Seven bits, and above them the bit that makes the count of ones even.
#[tactic(auto, unfolding(numbers::specs::Parity::evened))]
#[inline(always)]
pub(crate) fn with_parity(b: u8) -> u8
    requires { b < 128 }
    ensures { result ≡ evened b }
{
    if is_even(b) { b } else { b + 128 }
}
