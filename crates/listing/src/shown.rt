// What other listings are made of: an item, and the text of its line.
ghost use Rattle.listing.specs.Promises.{ReportedPromise, ItemLinePromise, LineNumberPromise};

use crate::{Item, WIDTH, items, printing};
use text::Text;
use wire::Report;

impl Item {
    // A report of a format, its last byte on line n.
    pub fn reported(letter: u8, n: u32, report: Report) -> Item
        ensures { ReportedPromise letter n report result }
    {
        items::report(letter, n, report)
    }

    // The number of an item's line, if it has one.
    pub fn line_number(self) -> Option<u32>
        ensures { LineNumberPromise self result }
    {
        match self {
            Item::D(n, _) => Some(n),
            Item::R(n, _, _, _) => Some(n),
            Item::E(n) => Some(n),
            Item::H(_) | Item::Over => None,
        }
    }

    // The line of an item.
    pub fn line(self) -> Text
        ensures { ItemLinePromise self result }
    {
        printing::line(self, WIDTH)
    }
}
