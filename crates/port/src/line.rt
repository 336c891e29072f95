// Many bytes: their words to a lent slice.
ghost use Rattle.std.specs.Prelude.{◌≡◌};
ghost use Rattle.port.specs.Line.{whole, line_of};

use crate::{Port, Words};

// The bytes one by one, up to one whose word has no room.
pub(crate) fn line(port: Port, raw: &[u8], out: &mut [u16]) -> Words
    ensures { whole result out.new ≡ line_of port raw.now out.old }
{
    let mut next = port;
    let mut written = 0;
    for (taken, b) in raw.iter().enumerate() {
        let heard = next.byte(*b);
        if let Some(word) = heard.given {
            if written == out.len() {
                return Words {
                    next,
                    taken,
                    written,
                };
            }
            out[written] = word;
            written += 1;
        }
        next = heard.next;
    }
    Words {
        next,
        taken: raw.len(),
        written,
    }
}
