// The rules of a good reader.
ghost use Rattle.std.specs.Prelude.{◌≡◌, ◌<◌, get_or};
ghost use Rattle.reader.specs.Good.{placed, good};
ghost use Rattle.reader.specs.Promises.{GoodPromise};

use crate::Reader;
use crate::letters::by_letter;

impl Reader {
    // Whether a place holds what it may: a byte that is valid there, or 0 where none is kept.
    #[inline(always)]
    fn holds(self, letter: u8, place: u8) -> bool
        requires { (letter ≡ self.format) × (place < 5) }
        ensures { result ≡ placed self place (get_or self.kept place 0) }
    {
        let byte = self.kept[place as usize];
        if place < self.count {
            return wire::fits(letter, place, byte);
        }
        byte == 0
    }

    // Whether the reader of a letter is good: a fifth byte is never kept.
    #[inline(always)]
    fn keeps(self, letter: u8) -> bool
        requires { letter ≡ self.format }
        ensures { result ≡ good self }
    {
        if self.count as usize >= wire::size(letter) {
            return false;
        }
        let three = self.holds(letter, 0) & self.holds(letter, 1) & self.holds(letter, 2);
        let placed = three & self.holds(letter, 3) & (self.kept[4] == 0);
        placed & (!self.awaiting | (!wire::marked(letter) & (self.count == 0)))
    }

    // Whether the reader is good: a step and a long read of any other is refused with 6.
    #[inline(always)]
    pub fn good(self) -> bool
        ensures { GoodPromise self result }
    {
        by_letter!(self.format, letter => self.keeps(letter))
    }
}
