// The seven formats by letter, size and mark.
ghost use Rattle.std.specs.Prelude.{◌≡◌};
ghost use Rattle.wire.specs.Line.{named_by, size_of, marked_of};

use crate::Format;

// The format of a letter, if the letter is in the table.
#[tactic(auto, unfolding(crate::specs::Line::named_by))]
#[inline(always)]
pub(crate) fn format_of(letter: u8) -> Option<Format>
    ensures { result ≡ named_by letter }
{
    match letter {
        b'S' => Some(Format::Mm),
        b'V' => Some(Format::Microsoft),
        b'A' => Some(Format::Absolute),
        b'B' => Some(Format::Relative),
        b'U' => Some(Format::FiveByte),
        b'T' => Some(Format::ThreeByte),
        b'W' => Some(Format::Hexadecimal),
        _ => None,
    }
}

impl Format {
    // How many bytes a report has.
    #[inline(always)]
    pub(crate) fn size(self) -> usize
        ensures { result ≡ size_of self }
    {
        match self {
            Format::Mm | Format::Microsoft | Format::ThreeByte => 3,
            Format::Absolute | Format::Relative | Format::FiveByte | Format::Hexadecimal => 5,
        }
    }

    // Whether the first byte is marked.
    #[inline(always)]
    pub(crate) fn is_marked(self) -> bool
        ensures { result ≡ marked_of self }
    {
        match self {
            Format::Mm | Format::Microsoft | Format::Absolute | Format::Relative => true,
            Format::FiveByte | Format::ThreeByte | Format::Hexadecimal => false,
        }
    }
}
