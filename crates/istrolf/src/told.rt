// The reader that is told of replies, for C.
ghost use Rattle.std.specs.Prelude.{◌≡◌};
ghost use Rattle.replies.specs.declared.Asked.TheVariants.{Command, Waking};
ghost use Rattle.replies.specs.Rules.{heard_in};
ghost use Rattle.replies.specs.Line.{heard_line_in};
ghost use Rattle.replies.specs.Promises.{telling_in};
ghost use Rattle.istrolf.specs.Readers.{Opens};
ghost use Rattle.istrolf.specs.Told.{kind_number, kind_of, packed, unpacked, stands, replied, packed_reply, own_of, packed_heard, refused_heard, packed_line, refused_line, packed_telling, refused_telling};
ghost use Rattle.istrolf.specs.Promises.{FreshToldPromise, TellPromise, ToldStepPromise, ToldReadPromise};

use crate::readers::{no_report, number_if};
use crate::{FreshTold, HeardWord, HeardWords, HeldReader, HeldReply, HeldTold, Own, ToldCommand};
use reader::{Answer, Reader};
use replies::{Asked, Awaited, Came, HeardLine, Kind, Reply, Told, ToldReader, ToldStep};
use wire::{BAD_STATE, Refusal, SUCCESS};

// The number of a reply's kind, and 0 for none; and back. No From: it would be of types of other crates only.
fn kind_number(kind: Option<Kind>) -> u8
    ensures { result ≡ kind_number kind }
{
    match kind {
        None => 0,
        Some(Kind::Ack) => 1,
        Some(Kind::Code) => 2,
        Some(Kind::Letters) => 3,
        Some(Kind::Buttons) => 4,
    }
}

fn kind_of(number: u8) -> Option<Kind>
    ensures { result ≡ kind_of number }
{
    match number {
        1 => Some(Kind::Ack),
        2 => Some(Kind::Code),
        3 => Some(Kind::Letters),
        4 => Some(Kind::Buttons),
        _ => None,
    }
}

impl From<ToldReader> for HeldTold {
    ghost from_gives = { λ told held. held ≡ packed told };

    fn from(told: ToldReader) -> Self {
        HeldTold {
            reader: HeldReader::from(told.reader),
            awaited: kind_number(told.awaited.kind),
            came: told.awaited.came,
        }
    }
}

// The told reader that is held, unless its reader does not stand or its number is that of no reply.
impl TryFrom<HeldTold> for ToldReader {
    type Error = Refusal;

    ghost try_from_gives = { Opens stands unpacked };

    fn try_from(held: HeldTold) -> Result<Self, Refusal> {
        let reader = Reader::try_from(held.reader)?;
        if held.awaited <= 4 {
            Ok(ToldReader {
                reader,
                awaited: Awaited {
                    kind: kind_of(held.awaited),
                    came: held.came,
                },
            })
        } else {
            Err(Refusal::BadState)
        }
    }
}

fn replied(kind: u8, format: u8, mode: u8, buttons: u8, came: Came) -> HeldReply
    ensures { result ≡ replied kind format mode buttons came }
{
    HeldReply {
        kind,
        format,
        mode,
        buttons,
        came,
    }
}

impl From<Option<Reply>> for HeldReply {
    ghost from_gives = { λ reply held. held ≡ packed_reply reply };

    fn from(reply: Option<Reply>) -> Self {
        let none = Came {
            count: 0,
            first: 0,
            second: 0,
        };
        match reply {
            None => replied(0, 0, 0, 0, none),
            Some(Reply::Ack) => replied(1, 0, 0, 0, none),
            Some(Reply::Format(f)) => replied(2, f, 0, 0, none),
            Some(Reply::Letters(f, m)) => replied(3, f, m, 0, none),
            Some(Reply::Buttons(n)) => replied(4, 0, 0, n, none),
            Some(Reply::Broken(came)) => replied(5, 0, 0, 0, came),
        }
    }
}

impl From<Answer> for Own {
    ghost from_gives = { λ answer own. own ≡ own_of answer };

    fn from(answer: Answer) -> Self {
        match answer {
            Answer::Nothing => Own {
                reports: 0,
                dropped: 0,
                report: no_report(),
            },
            Answer::Report(report) => Own {
                reports: 1,
                dropped: 0,
                report,
            },
            Answer::Dropped(count) => Own {
                reports: 0,
                dropped: count,
                report: no_report(),
            },
        }
    }
}

// What a step gives back to the reader that took it.
fn packed_heard(told: ToldReader, heard: Result<ToldStep, Refusal>) -> HeardWord
    ensures { result ≡ packed_heard (heard_in told heard) }
{
    match heard {
        Ok(step) => {
            let own = Own::from(step.answer);
            HeardWord {
                refusal: SUCCESS,
                reports: own.reports,
                dropped: own.dropped,
                reply: HeldReply::from(step.reply),
                next: HeldTold::from(step.next),
                report: own.report,
            }
        }
        Err(refusal) => HeardWord {
            refusal: refusal.number(),
            reports: 0,
            dropped: 0,
            reply: HeldReply::from(None),
            next: HeldTold::from(told),
            report: no_report(),
        },
    }
}

fn refused_heard(held: HeldTold) -> HeardWord
    ensures { result ≡ refused_heard held }
{
    HeardWord {
        refusal: BAD_STATE,
        reports: 0,
        dropped: 0,
        reply: HeldReply::from(None),
        next: held,
        report: no_report(),
    }
}

impl From<HeardLine> for HeardWords {
    ghost from_gives = { λ line words. words ≡ packed_line (heard_line_in line) };

    fn from(line: HeardLine) -> Self {
        HeardWords {
            refusal: number_if(line.refusal),
            reply: HeldReply::from(line.reply),
            next: HeldTold::from(line.next),
            taken: line.taken,
            reports: line.reports,
            dropped: line.dropped,
        }
    }
}

fn refused_line(held: HeldTold) -> HeardWords
    ensures { result ≡ refused_line held }
{
    HeardWords {
        refusal: BAD_STATE,
        reply: HeldReply::from(None),
        next: held,
        taken: 0,
        reports: 0,
        dropped: 0,
    }
}

// And a telling.
fn packed_telling(told: ToldReader, telling: Result<Told, Refusal>) -> ToldCommand
    ensures { result ≡ packed_telling (telling_in told telling) }
{
    match telling {
        Ok(telling) => ToldCommand {
            refusal: SUCCESS,
            discarded: telling.discarded,
            next: HeldTold::from(telling.next),
        },
        Err(refusal) => ToldCommand {
            refusal: refusal.number(),
            discarded: 0,
            next: HeldTold::from(told),
        },
    }
}

fn refused_telling(held: HeldTold) -> ToldCommand
    ensures { result ≡ refused_telling held }
{
    ToldCommand {
        refusal: BAD_STATE,
        discarded: 0,
        next: held,
    }
}

// A fresh one of a letter.
pub fn istrolf_told_fresh(letter: u8) -> FreshTold
    ensures { FreshToldPromise letter result }
{
    match ToldReader::fresh(letter) {
        Ok(told) => FreshTold {
            refusal: SUCCESS,
            told: HeldTold::from(told),
        },
        Err(refusal) => FreshTold {
            refusal: refusal.number(),
            told: HeldTold::from(ToldReader::default()),
        },
    }
}

// The command just sent.
pub fn istrolf_told_command(held: HeldTold, byte: u8) -> ToldCommand
    ensures { TellPromise held (Command byte) result }
{
    match ToldReader::try_from(held) {
        Ok(told) => packed_telling(told, told.tell(Asked::Command(byte))),
        Err(_) => refused_telling(held),
    }
}

// The byte just sent woke a dormant box.
pub fn istrolf_told_waking(held: HeldTold) -> ToldCommand
    ensures { TellPromise held Waking result }
{
    match ToldReader::try_from(held) {
        Ok(told) => packed_telling(told, told.tell(Asked::Waking)),
        Err(_) => refused_telling(held),
    }
}

// One word.
pub fn istrolf_told_step(held: HeldTold, word: u16) -> HeardWord
    ensures { ToldStepPromise held word result }
{
    match ToldReader::try_from(held) {
        Ok(told) => packed_heard(told, told.step(word)),
        Err(_) => refused_heard(held),
    }
}

// A line of words, and the numbers of its reports to a lent slice.
pub fn istrolf_told_read(held: HeldTold, words: &[u16], out: &mut [i16]) -> HeardWords
    ensures { ToldReadPromise held words.now out.old result out.new }
{
    match ToldReader::try_from(held) {
        Ok(told) => HeardWords::from(told.read(words, out)),
        Err(_) => refused_line(held),
    }
}
