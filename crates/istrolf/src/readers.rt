// The reader for C: line words in, reports out.
ghost use Rattle.std.specs.Prelude.{◌≡◌};
ghost use Rattle.reader.specs.State.{read_in};
ghost use Rattle.reader.specs.Line.{reading_in};
ghost use Rattle.wire.specs.Refusals.{number_if};
ghost use Rattle.istrolf.specs.Readers.{packed, unpacked, stands, Opens, no_report, answered, packed_read, refused_read, packed_reading, refused_reading};
ghost use Rattle.istrolf.specs.Promises.{FreshReaderPromise, ReaderStepPromise, ReadPromise};

use crate::{FreshReader, HeldReader, ReadWord, ReadWords};
use reader::{Answer, Reader, Reading, Step};
use wire::{BAD_STATE, Refusal, Report, SUCCESS};

impl From<Reader> for HeldReader {
    ghost from_gives = { λ reader held. held ≡ packed reader };

    #[inline(always)]
    fn from(reader: Reader) -> Self {
        let kept = reader.kept;
        HeldReader {
            format: reader.format,
            kept,
            count: reader.count,
            awaiting: reader.awaiting as u8,
        }
    }
}

// The reader that is held, unless its mark is neither 0 nor 1.
impl TryFrom<HeldReader> for Reader {
    type Error = Refusal;

    ghost try_from_gives = { Opens stands unpacked };

    #[inline(always)]
    fn try_from(held: HeldReader) -> Result<Self, Refusal> {
        if held.awaiting <= 1 {
            let kept = held.kept;
            Ok(Reader {
                format: held.format,
                kept,
                count: held.count,
                awaiting: held.awaiting == 1,
            })
        } else {
            Err(Refusal::BadState)
        }
    }
}

pub(crate) fn no_report() -> Report
    ensures { result ≡ no_report }
{
    Report {
        buttons: 0,
        x1: 0,
        y1: 0,
        x2: 0,
        y2: 0,
    }
}

#[inline(always)]
fn answered(refusal: u8, next: HeldReader, answer: Answer) -> ReadWord
    ensures { result ≡ answered refusal next answer }
{
    match answer {
        Answer::Nothing => ReadWord {
            refusal,
            reports: 0,
            dropped: 0,
            next,
            report: no_report(),
        },
        Answer::Report(report) => ReadWord {
            refusal,
            reports: 1,
            dropped: 0,
            next,
            report,
        },
        Answer::Dropped(count) => ReadWord {
            refusal,
            reports: 0,
            dropped: count,
            next,
            report: no_report(),
        },
    }
}

// What a step of a reader gave back.
#[inline(always)]
fn packed_read(reader: Reader, read: Result<Step, Refusal>) -> ReadWord
    ensures { result ≡ packed_read (read_in reader read) }
{
    match read {
        Ok(step) => answered(SUCCESS, HeldReader::from(step.next), step.answer),
        Err(refusal) => answered(refusal.number(), HeldReader::from(reader), Answer::Nothing),
    }
}

fn refused_read(held: HeldReader) -> ReadWord
    ensures { result ≡ refused_read held }
{
    ReadWord {
        refusal: BAD_STATE,
        reports: 0,
        dropped: 0,
        next: held,
        report: no_report(),
    }
}

// The number of a refusal, and 0 where there is none.
pub(crate) fn number_if(refusal: Option<Refusal>) -> u8
    ensures { result ≡ number_if refusal }
{
    match refusal {
        None => SUCCESS,
        Some(refusal) => refusal.number(),
    }
}

impl From<Reading> for ReadWords {
    ghost from_gives = { λ reading words. words ≡ packed_reading (reading_in reading) };

    fn from(reading: Reading) -> Self {
        ReadWords {
            refusal: number_if(reading.refusal),
            next: HeldReader::from(reading.next),
            taken: reading.taken,
            reports: reading.reports,
            dropped: reading.dropped,
        }
    }
}

fn refused_reading(held: HeldReader) -> ReadWords
    ensures { result ≡ refused_reading held }
{
    ReadWords {
        refusal: BAD_STATE,
        next: held,
        taken: 0,
        reports: 0,
        dropped: 0,
    }
}

// A fresh reader of a letter.
pub fn istrolf_reader_fresh(letter: u8) -> FreshReader
    ensures { FreshReaderPromise letter result }
{
    match Reader::fresh(letter) {
        Ok(reader) => FreshReader {
            refusal: SUCCESS,
            reader: HeldReader::from(reader),
        },
        Err(refusal) => FreshReader {
            refusal: refusal.number(),
            reader: HeldReader::from(Reader::default()),
        },
    }
}

// One word.
pub fn istrolf_reader_step(held: HeldReader, word: u16) -> ReadWord
    ensures { ReaderStepPromise held word result }
{
    match Reader::try_from(held) {
        Ok(reader) => packed_read(reader, reader.step(word)),
        Err(_) => refused_read(held),
    }
}

// A line of words, and the numbers of its reports to a lent slice.
pub fn istrolf_reader_read(held: HeldReader, words: &[u16], out: &mut [i16]) -> ReadWords
    ensures { ReadPromise held words.now out.old result out.new }
{
    match Reader::try_from(held) {
        Ok(reader) => ReadWords::from(reader.read(words, out)),
        Err(_) => refused_reading(held),
    }
}
