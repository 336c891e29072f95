// The reader of listings for C: a listing in, its items out, in pieces of any size.
ghost use Rattle.istrolf.specs.Promises.{FreshReadbackPromise, ReadbackReadPromise, ReadbackFinishPromise, ReadbackRewritePromise};

use readback::{Back, Readback, Rewritten};

// Before the first line.
#[unsafe(no_mangle)]
pub extern "C" fn istrolf_readback_fresh() -> Readback
    ensures { FreshReadbackPromise result }
{
    istrolf::readbacks::istrolf_readback_fresh()
}

// A piece of a listing, and its items to a lent slice.
#[unsafe(no_mangle)]
pub extern "C" fn istrolf_readback_read(reader: Readback, input: &[u8], out: &mut [i32]) -> Back
    ensures { ReadbackReadPromise reader input.now out.old result out.new }
{
    istrolf::readbacks::istrolf_readback_read(reader, input, out)
}

// The end of a listing, of which so many bytes are left.
#[unsafe(no_mangle)]
pub extern "C" fn istrolf_readback_finish(reader: Readback, left: usize) -> Back
    ensures { ReadbackFinishPromise reader left result }
{
    istrolf::readbacks::istrolf_readback_finish(reader, left)
}

// A piece of a listing, rewritten at the other width to a lent slice.
#[unsafe(no_mangle)]
pub extern "C" fn istrolf_readback_rewrite(
    reader: Readback,
    input: &[u8],
    out: &mut [u8],
) -> Rewritten
    ensures { ReadbackRewritePromise reader input.now out.old result out.new }
{
    istrolf::readbacks::istrolf_readback_rewrite(reader, input, out)
}
