// A whole log: one pass over its words.
ghost use Rattle.std.specs.Prelude.{◌≡◌, true, length};
ghost use Rattle.yard.specs.Good.{good};
ghost use Rattle.yard.specs.Log.{log_told, checked_of};

use crate::Yard;
use crate::rules::over;
use wire::Refusal;

// How many of the words can be sent, one after the other: behind one that cannot be sent they are looked at for a word above
// 257 alone.
pub(crate) fn sendable(yard: Yard, words: &[u16]) -> Result<usize, Refusal>
    requires { good yard ≡ true }
    ensures { log_told (length words.now) result ≡ checked_of yard words.now }
{
    let mut next = yard;
    let mut sendable = 0;
    for word in words {
        match next.word(*word)? {
            Some(behind) => {
                next = behind;
                sendable += 1;
            }
            None => next = over(next.format),
        }
    }
    Ok(sendable)
}
