// Salvage for C: the runs picked from a log, and the salvage of a recording.
ghost use Rattle.std.specs.Prelude.{◌≡◌};
ghost use Rattle.istrolf.specs.Salvages.{packed};
ghost use Rattle.istrolf.specs.Promises.{PickPromise, SalvagePromise};

use crate::SalvagedBytes;
use salvage::Picked;
use salvaged::Salvaged;

impl From<Salvaged> for SalvagedBytes {
    ghost from_gives = { λ told bytes. bytes ≡ packed told };

    fn from(told: Salvaged) -> Self {
        SalvagedBytes {
            whole: told.whole as u8,
            written: told.written,
        }
    }
}

// The starting places of the runs that leave out the fewest bytes, to a lent slice.
pub fn istrolf_salvage_pick(letter: u8, words: &[u16], places: &mut [u16]) -> Picked
    ensures { PickPromise letter words.now places.old result places.new }
{
    salvage::pick(letter, words, places)
}

// The salvage of a recording, to a lent slice.
pub fn istrolf_salvage_list(input: &[u8], out: &mut [u8]) -> SalvagedBytes
    ensures { SalvagePromise input.now out.old result out.new }
{
    SalvagedBytes::from(salvaged::list(input, out))
}
