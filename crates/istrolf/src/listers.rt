// The lister for C: a recording in, its listing out, in pieces of any size.
ghost use Rattle.std.specs.Prelude.{◌≡◌};
ghost use Rattle.listing.specs.Promises.{listed_in};
ghost use Rattle.istrolf.specs.Readers.{Opens};
ghost use Rattle.istrolf.specs.Listers.{packed, unpacked, stands, packed_listed, refused_listed};
ghost use Rattle.istrolf.specs.Promises.{FreshListerPromise, FeedPromise, FinishPromise};

use crate::readers::number_if;
use crate::{HeldLister, HeldReader, ListedBytes};
use listing::{Listed, Lister, Scanner};
use reader::Reader;
use wire::{BAD_STATE, Refusal};

impl From<Lister> for HeldLister {
    ghost from_gives = { λ lister held. held ≡ packed lister };

    fn from(lister: Lister) -> Self {
        let scanner = lister.scanner;
        let held = scanner.held;
        HeldLister {
            line: scanner.line,
            ended: scanner.ended as u8,
            held,
            count: scanner.count,
            reader: HeldReader::from(lister.reader),
        }
    }
}

// The lister that is held, unless its mark is neither 0 nor 1 or its reader does not stand.
impl TryFrom<HeldLister> for Lister {
    type Error = Refusal;

    ghost try_from_gives = { Opens stands unpacked };

    fn try_from(held: HeldLister) -> Result<Self, Refusal> {
        let reader = Reader::try_from(held.reader)?;
        if held.ended <= 1 {
            let bytes = held.held;
            Ok(Lister {
                scanner: Scanner {
                    line: held.line,
                    ended: held.ended == 1,
                    held: bytes,
                    count: held.count,
                },
                reader,
            })
        } else {
            Err(Refusal::BadState)
        }
    }
}

impl From<Listed> for ListedBytes {
    ghost from_gives = { λ listed bytes. bytes ≡ packed_listed (listed_in listed) };

    fn from(listed: Listed) -> Self {
        ListedBytes {
            refusal: number_if(listed.refusal),
            ended: listed.ended as u8,
            taken: listed.taken,
            written: listed.written,
            next: HeldLister::from(listed.next),
        }
    }
}

fn refused_listed(held: HeldLister) -> ListedBytes
    ensures { result ≡ refused_listed held }
{
    ListedBytes {
        refusal: BAD_STATE,
        ended: held.ended,
        taken: 0,
        written: 0,
        next: held,
    }
}

// Before the first byte.
pub fn istrolf_lister_fresh() -> HeldLister
    ensures { FreshListerPromise result }
{
    HeldLister::from(Lister::fresh())
}

// A piece of the input, and its text to a lent slice.
pub fn istrolf_lister_feed(held: HeldLister, input: &[u8], out: &mut [u8]) -> ListedBytes
    ensures { FeedPromise held input.now out.old result out.new }
{
    match Lister::try_from(held) {
        Ok(lister) => ListedBytes::from(lister.feed(input, out)),
        Err(_) => refused_listed(held),
    }
}

// The end of the input, and its text to a lent slice.
pub fn istrolf_lister_finish(held: HeldLister, out: &mut [u8]) -> ListedBytes
    ensures { FinishPromise held out.old result out.new }
{
    match Lister::try_from(held) {
        Ok(lister) => ListedBytes::from(lister.finish(out)),
        Err(_) => refused_listed(held),
    }
}
