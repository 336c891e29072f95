// The reader for C: line words in, reports out.
ghost use Rattle.istrolf.specs.Promises.{FreshReaderPromise, ReaderStepPromise, ReadPromise};

use istrolf::{FreshReader, HeldReader, ReadWord, ReadWords};

// A fresh reader of a letter.
#[unsafe(no_mangle)]
pub extern "C" fn istrolf_reader_fresh(letter: u8) -> FreshReader
    ensures { FreshReaderPromise letter result }
{
    istrolf::readers::istrolf_reader_fresh(letter)
}

// One word.
#[unsafe(no_mangle)]
pub extern "C" fn istrolf_reader_step(held: HeldReader, word: u16) -> ReadWord
    ensures { ReaderStepPromise held word result }
{
    istrolf::readers::istrolf_reader_step(held, word)
}

// A line of words, and the numbers of its reports to a lent slice.
#[unsafe(no_mangle)]
pub extern "C" fn istrolf_reader_read(held: HeldReader, words: &[u16], out: &mut [i16]) -> ReadWords
    ensures { ReadPromise held words.now out.old result out.new }
{
    istrolf::readers::istrolf_reader_read(held, words, out)
}
