// Hexadecimal digits, by the two ranges: '0' to '9' are 0 to 9, 'A' to 'F' are 10 to 15.
ghost use Rattle.std.specs.Prelude.{◌≡◌, ◌<◌};
ghost use Rattle.wire.specs.Digits.{is_digit, digit, undigit};

// Whether a byte is a digit 0-9 or A-F. As `matches!` over the two ranges a word of W cost five instructions more.
#[inline(always)]
pub(crate) fn is_digit(b: u8) -> bool
    ensures { result ≡ is_digit b }
{
    ((b'0' <= b) & (b <= b'9')) | ((b'A' <= b) & (b <= b'F'))
}

// The digit of a number below 16.
#[tactic(auto, unfolding(crate::specs::Digits::digit))]
#[inline(always)]
pub(crate) fn digit_of(n: u8) -> u8
    requires { n < 16 }
    ensures { result ≡ digit n }
{
    match n {
        0..=9 => b'0' + n,
        _ => b'A' + (n - 10),
    }
}

// The number of a digit: '0' to '9' have it in their low four bits, 'A' to 'F' 9 less than it. A byte that is no digit counts as 0.
#[inline(always)]
pub(crate) fn number_of(b: u8) -> u8
    ensures { result ≡ undigit b }
{
    match b {
        b'0'..=b'9' => b % 16,
        b'A'..=b'F' => b % 16 + 9,
        _ => 0,
    }
}
