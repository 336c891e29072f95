// The bridge for C: line words of any format in, bytes of V out.
ghost use Rattle.istrolf.specs.Promises.{FreshBridgePromise, ConvertPromise};

use istrolf::{ConvertedWords, FreshBridge, HeldBridge};

// A fresh bridge of a letter.
#[unsafe(no_mangle)]
pub extern "C" fn istrolf_bridge_fresh(letter: u8) -> FreshBridge
    ensures { FreshBridgePromise letter result }
{
    istrolf::bridges::istrolf_bridge_fresh(letter)
}

// A line of words, and the bytes of its V reports to a lent slice.
#[unsafe(no_mangle)]
pub extern "C" fn istrolf_bridge_convert(
    held: HeldBridge,
    words: &[u16],
    out: &mut [u8],
) -> ConvertedWords
    ensures { ConvertPromise held words.now out.old result out.new }
{
    istrolf::bridges::istrolf_bridge_convert(held, words, out)
}
