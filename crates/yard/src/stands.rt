// Which bytes of a report a box can send: those that fit, but no minus zero and no -128.
ghost use Rattle.std.specs.Prelude.{◌≡◌};
ghost use Rattle.yard.specs.Stands.{minus_zero, least_v, least, least_w, barred_by, stands_by};

// A magnitude 0 of S under a minus.
#[tactic(auto, unfolding(numbers::specs::Bits::bit, crate::specs::Stands::minus_zero))]
fn minus_zero(place: u8, first: u8, byte: u8) -> bool
    ensures { result ≡ minus_zero place first byte }
{
    let x = (place == 1) & (first / 16 % 2 != 1);
    let y = (place == 2) & (first / 8 % 2 != 1);
    (byte == 0) & (x | y)
}

// -128 in V, whose first byte has the two high bits of each movement.
fn least_v(place: u8, first: u8, byte: u8) -> bool
    ensures { result ≡ least_v place first byte }
{
    let x = first % 4 * 64 + byte % 64;
    let y = first / 4 % 4 * 64 + byte % 64;
    ((place == 1) & (x == 128)) | ((place == 2) & (y == 128))
}

// -128 in U and T.
#[tactic(auto, unfolding(crate::specs::Stands::least))]
fn least(place: u8, byte: u8) -> bool
    ensures { result ≡ least place byte }
{
    (place != 0) & (byte == 128)
}

// -128 in W: the high digit 8 behind the low digit 0.
#[tactic(auto, unfolding(crate::specs::Stands::least_w))]
fn least_w(place: u8, last: u8, byte: u8) -> bool
    ensures { result ≡ least_w place last byte }
{
    ((place == 2) | (place == 4)) & (last == b'0') & (byte == b'8')
}

// What no box sends there, though it fits.
fn barred(letter: u8, place: u8, first: u8, last: u8, byte: u8) -> bool
    ensures { result ≡ barred_by letter place first last byte }
{
    match letter {
        b'S' => minus_zero(place, first, byte),
        b'V' => least_v(place, first, byte),
        b'U' => least(place, byte),
        b'T' => least(place, byte),
        b'W' => least_w(place, last, byte),
        _ => false,
    }
}

// Whether a box can send the byte at a place of a report, behind a first and a last one.
#[tactic(auto, unfolding(crate::specs::Stands::stands_by))]
pub(crate) fn stands(letter: u8, place: u8, first: u8, last: u8, byte: u8) -> bool
    ensures { result ≡ stands_by letter place first last byte }
{
    wire::fits(letter, place, byte) & !barred(letter, place, first, last, byte)
}
