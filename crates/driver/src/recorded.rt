// The lines of a recording as they are written.
ghost use Rattle.text.specs.Growth.{capacity};
ghost use Rattle.driver.specs.Recorded.{records_in, word_bytes, record_bytes, all_lines};
ghost use Rattle.driver.specs.Feeding.{Holds};

use crate::Record;
use text::{PLAIN, Text};
use wire::{BREAK, SILENCE};

// A word: a break, a silence, or a byte.
fn word(w: u16) -> Text
    ensures { Holds 39 result (word_bytes w) }
{
    if w == BREAK {
        return Text::none().with(b'X');
    }
    if w == SILENCE {
        return Text::none().with(b'Q');
    }
    Text::none().with(b'B').with(b'\t').decimal(PLAIN, w as i64)
}

fn record(of: Record) -> Text
    ensures { Holds 39 result (record_bytes of) }
{
    match of {
        Record::Format(f) => Text::none().with(b'F').with(b'\t').with(f),
        Record::Word(w) => word(w),
        Record::Bad(n) => Text::none().with(b'E').with(b'\t').decimal(PLAIN, n as i64),
        Record::Over => Text::none()
            .with(b'E')
            .with(b'\t')
            .with(b'o')
            .with(b'v')
            .with(b'e')
            .with(b'r'),
    }
}

// The line of what is recorded, if anything.
pub(crate) fn line(given: Option<Record>) -> Text
    ensures { Holds capacity result (all_lines (records_in given)) }
{
    match given {
        None => Text::none(),
        Some(of) => record(of).with(b'\n'),
    }
}
