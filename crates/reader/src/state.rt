// A reader that has no bytes.
ghost use Rattle.std.specs.Prelude.{◌≡◌};
ghost use Rattle.reader.specs.State.{no_bytes};

use crate::Reader;

#[inline(always)]
pub(crate) fn no_bytes(letter: u8, awaiting: bool) -> Reader
    ensures { result ≡ no_bytes letter awaiting }
{
    Reader {
        format: letter,
        kept: [0, 0, 0, 0, 0],
        count: 0,
        awaiting: awaiting,
    }
}
