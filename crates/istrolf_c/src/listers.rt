// The lister for C: a recording in, its listing out, in pieces of any size.
ghost use Rattle.istrolf.specs.Promises.{FreshListerPromise, FeedPromise, FinishPromise};

use istrolf::{HeldLister, ListedBytes};

// Before the first byte.
#[unsafe(no_mangle)]
pub extern "C" fn istrolf_lister_fresh() -> HeldLister
    ensures { FreshListerPromise result }
{
    istrolf::listers::istrolf_lister_fresh()
}

// A piece of the input, and its text to a lent slice.
#[unsafe(no_mangle)]
pub extern "C" fn istrolf_lister_feed(held: HeldLister, input: &[u8], out: &mut [u8]) -> ListedBytes
    ensures { FeedPromise held input.now out.old result out.new }
{
    istrolf::listers::istrolf_lister_feed(held, input, out)
}

// The end of the input, and its text to a lent slice.
#[unsafe(no_mangle)]
pub extern "C" fn istrolf_lister_finish(held: HeldLister, out: &mut [u8]) -> ListedBytes
    ensures { FinishPromise held out.old result out.new }
{
    istrolf::listers::istrolf_lister_finish(held, out)
}
