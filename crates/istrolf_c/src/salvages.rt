// Salvage for C: the runs picked from a log, and the salvage of a recording.
ghost use Rattle.istrolf.specs.Promises.{PickPromise, SalvagePromise};

use istrolf::SalvagedBytes;
use salvage::Picked;

// The starting places of the runs that leave out the fewest bytes, to a lent slice.
#[unsafe(no_mangle)]
pub extern "C" fn istrolf_salvage_pick(letter: u8, words: &[u16], places: &mut [u16]) -> Picked
    ensures { PickPromise letter words.now places.old result places.new }
{
    istrolf::salvages::istrolf_salvage_pick(letter, words, places)
}

// The salvage of a recording, to a lent slice.
#[unsafe(no_mangle)]
pub extern "C" fn istrolf_salvage_list(input: &[u8], out: &mut [u8]) -> SalvagedBytes
    ensures { SalvagePromise input.now out.old result out.new }
{
    istrolf::salvages::istrolf_salvage_list(input, out)
}
