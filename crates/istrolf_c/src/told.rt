// The reader that is told of replies, for C.
ghost use Rattle.replies.specs.declared.Asked.TheVariants.{Command, Waking};
ghost use Rattle.istrolf.specs.Promises.{FreshToldPromise, TellPromise, ToldStepPromise, ToldReadPromise};

use istrolf::{FreshTold, HeardWord, HeardWords, HeldTold, ToldCommand};

// A fresh one of a letter.
#[unsafe(no_mangle)]
pub extern "C" fn istrolf_told_fresh(letter: u8) -> FreshTold
    ensures { FreshToldPromise letter result }
{
    istrolf::told::istrolf_told_fresh(letter)
}

// The command just sent.
#[unsafe(no_mangle)]
pub extern "C" fn istrolf_told_command(held: HeldTold, byte: u8) -> ToldCommand
    ensures { TellPromise held (Command byte) result }
{
    istrolf::told::istrolf_told_command(held, byte)
}

// The byte just sent woke a dormant box.
#[unsafe(no_mangle)]
pub extern "C" fn istrolf_told_waking(held: HeldTold) -> ToldCommand
    ensures { TellPromise held Waking result }
{
    istrolf::told::istrolf_told_waking(held)
}

// One word.
#[unsafe(no_mangle)]
pub extern "C" fn istrolf_told_step(held: HeldTold, word: u16) -> HeardWord
    ensures { ToldStepPromise held word result }
{
    istrolf::told::istrolf_told_step(held, word)
}

// A line of words, and the numbers of its reports to a lent slice.
#[unsafe(no_mangle)]
pub extern "C" fn istrolf_told_read(held: HeldTold, words: &[u16], out: &mut [i16]) -> HeardWords
    ensures { ToldReadPromise held words.now out.old result out.new }
{
    istrolf::told::istrolf_told_read(held, words, out)
}
