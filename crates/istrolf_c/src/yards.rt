// The yard check for C: line words in, whether a box can send them out.
ghost use Rattle.istrolf.specs.Promises.{FreshYardPromise, YardStepPromise, YardCheckPromise};

use yard::{Checked, Judged, NewYard, Yard};

// A check of a letter that has seen no word.
#[unsafe(no_mangle)]
pub extern "C" fn istrolf_yard_fresh(letter: u8) -> NewYard
    ensures { FreshYardPromise letter result }
{
    istrolf::yards::istrolf_yard_fresh(letter)
}

// One word.
#[unsafe(no_mangle)]
pub extern "C" fn istrolf_yard_step(yard: Yard, word: u16) -> Judged
    ensures { YardStepPromise yard word result }
{
    istrolf::yards::istrolf_yard_step(yard, word)
}

// A whole log.
#[unsafe(no_mangle)]
pub extern "C" fn istrolf_yard_check(letter: u8, words: &[u16]) -> Checked
    ensures { YardCheckPromise letter words.now result }
{
    istrolf::yards::istrolf_yard_check(letter, words)
}
