// What a telling and one word do to a good reader.
ghost use Rattle.std.specs.Prelude.{◌≡◌, true};
ghost use Rattle.replies.specs.Rules.{reply_to, kind_of, heard_by, heard_in, keep, pass, continues, word_of};

use crate::replying::nothing;
use crate::{Asked, Kind, ToldReader, ToldStep};
use ballbox::{BYTE_05, LETTER_F, LETTER_T, SPACE};
use reader::Answer;
use wire::Refusal;

// The reply that a command has, if any.
fn reply_to(byte: u8) -> Option<Kind>
    ensures { result ≡ reply_to byte }
{
    match byte {
        SPACE => Some(Kind::Ack),
        LETTER_F => Some(Kind::Code),
        LETTER_T => Some(Kind::Letters),
        BYTE_05 => Some(Kind::Buttons),
        _ => None,
    }
}

// The reply to what was just sent.
pub(crate) fn kind_of(asked: Asked) -> Option<Kind>
    ensures { result ≡ kind_of asked }
{
    match asked {
        Asked::Command(byte) => reply_to(byte),
        Asked::Waking => Some(Kind::Ack),
    }
}

impl ToldReader {
    // The next byte of the reply; the last tells it. The report reader stays as it was.
    fn keep(self, byte: u8) -> ToldStep
        requires { continues self.awaited byte ≡ true }
        ensures { heard_by result ≡ keep self byte }
    {
        if self.awaited.finishes() {
            return ToldStep {
                next: ToldReader {
                    reader: self.reader,
                    awaited: nothing(),
                },
                reply: self.awaited.told(byte),
                answer: Answer::Nothing,
            };
        }
        ToldStep {
            next: ToldReader {
                reader: self.reader,
                awaited: self.awaited.more(byte),
            },
            reply: None,
            answer: Answer::Nothing,
        }
    }

    // A word for the report reader; the reply that was awaited is broken.
    fn pass(self, word: u16) -> Result<ToldStep, Refusal>
        ensures { heard_in self result ≡ pass self word }
    {
        let read = self.reader.step(word)?;
        Ok(ToldStep {
            next: ToldReader {
                reader: read.next,
                awaited: nothing(),
            },
            reply: self.awaited.broken(),
            answer: read.answer,
        })
    }

    // A word: of the reply, or for the report reader.
    pub(crate) fn word(self, word: u16) -> Result<ToldStep, Refusal>
        ensures { heard_in self result ≡ word_of self word }
    {
        if self.awaited.continues(word) {
            return Ok(self.keep((word % 256) as u8));
        }
        self.pass(word)
    }
}
