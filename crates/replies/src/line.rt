// Over many words: the reply at the front of a line, and then the report reader's long read.
ghost use Rattle.std.specs.Prelude.{◌≡◌, true};
ghost use Rattle.reader.specs.Good.{good};
ghost use Rattle.fold.specs.Calls.{line};
ghost use Rattle.replies.specs.Line.{heard_line_in, whole, hears_line};
ghost use Rattle.replies.specs.Fronts.{front, front_of, closed};

use crate::replying::nothing;
use crate::{Awaited, Front, HeardLine, Reply, ToldReader};

// How far it goes.
fn at_front(awaited: Awaited, taken: usize, reply: Option<Reply>) -> Front
    ensures { result ≡ front awaited taken reply }
{
    Front {
        awaited,
        taken,
        reply,
    }
}

impl Awaited {
    // The words at the front of a line that are the reply's.
    fn over(self, words: &[u16]) -> Front
        ensures { result ≡ front_of self words.now }
    {
        let mut awaited = self;
        for (at, word) in words.iter().enumerate() {
            if !awaited.continues(*word) {
                return at_front(awaited, at, None);
            }
            let byte = (*word % 256) as u8;
            if awaited.finishes() {
                return at_front(nothing(), at + 1, awaited.told(byte));
            }
            awaited = awaited.more(byte);
        }
        at_front(awaited, words.len(), None)
    }
}

impl Front {
    // What became of the reply where the report reader took so many words behind it: the first of them breaks a reply that is not whole.
    fn closed(self, taken: usize) -> Front
        ensures { result ≡ closed self taken }
    {
        if taken == 0 {
            return self;
        }
        at_front(nothing(), self.taken, self.reply.or(self.awaited.broken()))
    }
}

impl ToldReader {
    // The reply at the front, and the rest to the report reader.
    pub(crate) fn line(self, words: &[u16], out: &mut [i16]) -> HeardLine
        requires { good self.reader ≡ true }
        ensures { whole (heard_line_in result) out.new ≡ line hears_line self words.now out.old }
    {
        let first = self.awaited.over(words);
        let rest = self.reader.read(&words[first.taken..], out);
        let then = first.closed(rest.taken);
        HeardLine {
            refusal: rest.refusal,
            next: ToldReader {
                reader: rest.next,
                awaited: then.awaited,
            },
            taken: first.taken + rest.taken,
            reports: rest.reports,
            dropped: rest.dropped,
            reply: then.reply,
        }
    }
}
