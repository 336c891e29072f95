// The bridge for C: line words of any format in, bytes of V out.
ghost use Rattle.std.specs.Prelude.{◌≡◌};
ghost use Rattle.bridge.specs.Line.{converted_in};
ghost use Rattle.istrolf.specs.Readers.{Opens};
ghost use Rattle.istrolf.specs.Bridges.{packed, unpacked, stands, packed_converted, refused_converted};
ghost use Rattle.istrolf.specs.Promises.{FreshBridgePromise, ConvertPromise};

use crate::readers::number_if;
use crate::{ConvertedWords, FreshBridge, HeldBridge, HeldReader};
use bridge::{Base, Bridge, Converted, Past};
use reader::Reader;
use wire::{BAD_STATE, Refusal, SUCCESS};

impl From<Bridge> for HeldBridge {
    ghost from_gives = { λ bridge held. held ≡ packed bridge };

    fn from(bridge: Bridge) -> Self {
        let past = bridge.past;
        let base = past.base;
        HeldBridge {
            reader: HeldReader::from(bridge.reader),
            based: base.set as u8,
            middle: past.middle as u8,
            presses: past.presses,
            x: base.x,
            y: base.y,
        }
    }
}

// The bridge that is held, unless its reader does not stand or one of its marks is neither 0 nor 1.
impl TryFrom<HeldBridge> for Bridge {
    type Error = Refusal;

    ghost try_from_gives = { Opens stands unpacked };

    fn try_from(held: HeldBridge) -> Result<Self, Refusal> {
        let reader = Reader::try_from(held.reader)?;
        if (held.based <= 1) & (held.middle <= 1) {
            Ok(Bridge {
                reader,
                past: Past {
                    base: Base {
                        set: held.based == 1,
                        x: held.x,
                        y: held.y,
                    },
                    middle: held.middle == 1,
                    presses: held.presses,
                },
            })
        } else {
            Err(Refusal::BadState)
        }
    }
}

impl From<Converted> for ConvertedWords {
    ghost from_gives = { λ converted words. words ≡ packed_converted (converted_in converted) };

    fn from(converted: Converted) -> Self {
        ConvertedWords {
            refusal: number_if(converted.refusal),
            next: HeldBridge::from(converted.next),
            taken: converted.taken,
            reports: converted.reports,
            sent: converted.sent,
            dropped: converted.dropped,
        }
    }
}

fn refused_converted(held: HeldBridge) -> ConvertedWords
    ensures { result ≡ refused_converted held }
{
    ConvertedWords {
        refusal: BAD_STATE,
        next: held,
        taken: 0,
        reports: 0,
        sent: 0,
        dropped: 0,
    }
}

// A fresh bridge of a letter.
pub fn istrolf_bridge_fresh(letter: u8) -> FreshBridge
    ensures { FreshBridgePromise letter result }
{
    match Bridge::fresh(letter) {
        Ok(bridge) => FreshBridge {
            refusal: SUCCESS,
            bridge: HeldBridge::from(bridge),
        },
        Err(refusal) => FreshBridge {
            refusal: refusal.number(),
            bridge: HeldBridge::from(Bridge::default()),
        },
    }
}

// A line of words, and the bytes of its V reports to a lent slice.
pub fn istrolf_bridge_convert(held: HeldBridge, words: &[u16], out: &mut [u8]) -> ConvertedWords
    ensures { ConvertPromise held words.now out.old result out.new }
{
    match Bridge::try_from(held) {
        Ok(bridge) => ConvertedWords::from(bridge.convert(words, out)),
        Err(_) => refused_converted(held),
    }
}
