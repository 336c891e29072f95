// What one word does to a good check.
ghost use Rattle.std.specs.Prelude.{◌≡◌, ◌<◌};
ghost use Rattle.wire.specs.Line.{size_by};
ghost use Rattle.yard.specs.State.{none_gone, over};
ghost use Rattle.yard.specs.Rules.{told, first_with, one_more, byte_can, silence_of, word_of};

use crate::stands::stands;
use crate::{Judged, Yard};
use wire::{BREAK, Refusal, SILENCE, SUCCESS};

// A check between reports.
pub(crate) fn none_gone(letter: u8) -> Yard
    ensures { result ≡ none_gone letter }
{
    Yard {
        format: letter,
        first: 0,
        last: 0,
        count: 0,
        ended: 0,
    }
}

// A check that has ended.
pub(crate) fn over(letter: u8) -> Yard
    ensures { result ≡ over letter }
{
    Yard {
        ended: 1,
        ..none_gone(letter)
    }
}

impl Yard {
    // What is told of a word: the check behind it, where a box can send it; or that none can; or why it is refused.
    pub(crate) fn judged(self, said: Result<Option<Yard>, Refusal>) -> Judged
        ensures { result ≡ told self said }
    {
        match said {
            Ok(Some(next)) => Judged {
                refusal: SUCCESS,
                can: 1,
                next,
            },
            Ok(None) => Judged {
                refusal: SUCCESS,
                can: 0,
                next: over(self.format),
            },
            Err(refusal) => Judged {
                refusal: refusal.number(),
                can: 0,
                next: self,
            },
        }
    }

    // The first byte of the report, with one more.
    #[tactic(auto, unfolding(crate::specs::Rules::first_with))]
    fn first_with(self, byte: u8) -> u8
        ensures { result ≡ first_with self byte }
    {
        if self.count == 0 { byte } else { self.first }
    }

    // A byte more of the report has gone.
    fn one_more(self, byte: u8) -> Yard
        requires { self.count < size_by self.format }
        ensures { result ≡ one_more self byte }
    {
        Yard {
            format: self.format,
            first: self.first_with(byte),
            last: byte,
            count: self.count + 1,
            ended: 0,
        }
    }

    // A byte: behind the last of a report nothing has gone.
    #[tactic(auto, unfolding(crate::specs::Rules::byte_can))]
    fn byte(self, byte: u8) -> Option<Yard>
        requires { self.count < size_by self.format }
        ensures { told self (Ok result) ≡ byte_can self byte }
    {
        if !stands(self.format, self.count, self.first, self.last, byte) {
            return None;
        }
        if self.count as usize + 1 == wire::size(self.format) {
            Some(none_gone(self.format))
        } else {
            Some(self.one_more(byte))
        }
    }

    // A silence stands between reports only.
    #[tactic(auto, unfolding(crate::specs::Rules::silence_of))]
    fn silence(self) -> Option<Yard>
        ensures { told self (Ok result) ≡ silence_of self }
    {
        if self.count == 0 {
            Some(none_gone(self.format))
        } else {
            None
        }
    }

    // A word: a byte, a break, a silence; any other is refused. A break may stand anywhere: of the report that is broken off
    // any number of bytes has gone, or none.
    #[tactic(auto, unfolding(crate::specs::Rules::word_of))]
    pub(crate) fn word(self, word: u16) -> Result<Option<Yard>, Refusal>
        requires { self.count < size_by self.format }
        ensures { told self result ≡ word_of self word }
    {
        if word > SILENCE {
            return Err(Refusal::BadWord);
        }
        if self.ended == 1 {
            return Ok(None);
        }
        if word <= 255 {
            return Ok(self.byte(word as u8));
        }
        if word == BREAK {
            return Ok(Some(none_gone(self.format)));
        }
        Ok(self.silence())
    }
}
