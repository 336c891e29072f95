// The reader of listings for C: a listing in, its items out, in pieces of any size.
ghost use Rattle.istrolf.specs.Promises.{FreshReadbackPromise, ReadbackReadPromise, ReadbackFinishPromise, ReadbackRewritePromise};

use readback::{Back, Readback, Rewritten};

// Before the first line.
pub fn istrolf_readback_fresh() -> Readback
    ensures { FreshReadbackPromise result }
{
    Readback::fresh()
}

// A piece of a listing, and its items to a lent slice.
pub fn istrolf_readback_read(reader: Readback, input: &[u8], out: &mut [i32]) -> Back
    ensures { ReadbackReadPromise reader input.now out.old result out.new }
{
    reader.read(input, out)
}

// The end of a listing, of which so many bytes are left.
pub fn istrolf_readback_finish(reader: Readback, left: usize) -> Back
    ensures { ReadbackFinishPromise reader left result }
{
    reader.finish(left)
}

// A piece of a listing, rewritten at the other width to a lent slice.
pub fn istrolf_readback_rewrite(reader: Readback, input: &[u8], out: &mut [u8]) -> Rewritten
    ensures { ReadbackRewritePromise reader input.now out.old result out.new }
{
    reader.rewrite(input, out)
}
