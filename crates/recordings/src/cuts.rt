// A recording listed in several cuts: pieces of input, and free places, of several sizes.
ghost use Rattle.std.specs.Prelude.{◌≤◌, length};
ghost use Rattle.io.specs.Counts.{IsPrefixLen};

use listing::{Listed, Lister};
use std::io::Stdout;

// Free places for any of these listings.
const MANY: usize = 512;

// Free places for any of their lines.
const FEW: usize = 26;

// A call that is handed the first bytes of the input and the first free places, at most so many.
fn feed(lister: Lister, input: &[u8], cut: usize, out: &mut [u8], places: usize) -> Listed
    ensures { (result.taken ≤ length input.now) × (result.written ≤ length out.old) }
{
    let bytes = cut.min(input.len());
    let free = places.min(out.len());
    lister.feed(&input[..bytes], &mut out[..free])
}

// The end of the input: in three places, which are too few for any text, and then again with enough.
fn finish(lister: Lister, out: &mut [u8]) -> usize
    ensures { result ≤ length out.new }
{
    let mut short = [0u8; 3];
    let tried = lister.finish(&mut short);
    tried.next.finish(out).written
}

// The listing of a recording in such calls, each handed what the one before left, and its length. A call that takes nothing ends it.
fn list(first: Lister, recording: &[u8], cut: usize, out: &mut [u8], places: usize) -> usize
    ensures { IsPrefixLen result out.new }
{
    let mut lister = first;
    let mut rest = recording;
    let mut written = 0;
    while !rest.is_empty() {
        let listed = feed(lister, rest, cut, &mut out[written..], places);
        if listed.taken == 0 {
            return written;
        }
        lister = listed.next;
        rest = &rest[listed.taken..];
        written += listed.written;
    }
    written + finish(lister, &mut out[written..])
}

// Whether a cut gives this listing; one that does not is named.
fn gives(
    output: Stdout,
    listing: &[u8],
    first: Lister,
    recording: &[u8],
    cut: usize,
    places: usize,
) -> bool {
    let mut out = [0u8; MANY];
    let n = list(first, recording, cut, &mut out, places);
    if listing == &out[..n] {
        return true;
    }
    let _ = println!(output; "cut differs: pieces of {cut} bytes, {places} places");
    false
}

// Says so where every cut gives this listing.
fn compare(output: Stdout, listing: &[u8], first: Lister, recording: &[u8]) {
    let whole = recording.len();
    let same = gives(output, listing, first, recording, 1, MANY)
        & gives(output, listing, first, recording, 2, MANY)
        & gives(output, listing, first, recording, 3, MANY)
        & gives(output, listing, first, recording, 7, MANY)
        & gives(output, listing, first, recording, 64, MANY)
        & gives(output, listing, first, recording, whole, FEW);
    if same {
        let _ = output.write_all(b"cuts same\n");
    }
}

// A case: its title, what a lister writes of the recording all at once, and whether the cuts give the same.
pub(crate) fn case_behind(output: Stdout, title: &[u8], first: Lister, recording: &[u8]) {
    let mut out = [0u8; MANY];
    let n = list(first, recording, recording.len(), &mut out, MANY);
    let listing = &out[..n];
    let _ = output.write_all(b"# ");
    let _ = output.write_all(title);
    let _ = output.write_all(b"\n");
    let _ = output.write_all(listing);
    compare(output, listing, first, recording);
}

// The same from the start.
pub(crate) fn case(output: Stdout, title: &[u8], recording: &[u8]) {
    case_behind(output, title, Lister::fresh(), recording);
}
