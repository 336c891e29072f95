// Lines to a lent slice, one after the other, up to the first that has no room.
ghost use Rattle.std.specs.Prelude.{[], ◌∷◌};
ghost use Rattle.listing.specs.Printing.{form_of};
ghost use Rattle.listing.proofs.Few.{Short};
ghost use Rattle.salvaged.specs.Listing.{item_line};
ghost use Rattle.salvaged.specs.Walk.{Adds, AddsText};

use crate::Salvaged;
use listing::Item;
use text::Text;

// A line more.
pub(crate) fn add(told: Salvaged, line: Text, out: &mut [u8]) -> Salvaged
    ensures { AddsText line told out.old result out.new }
{
    let used = told.written;
    if !told.whole {
        return told;
    }
    if !line.put(out, used) {
        return Salvaged {
            written: used,
            whole: false,
        };
    }
    Salvaged {
        written: used + line.len,
        whole: true,
    }
}

// The line of an item more.
pub(crate) fn item(told: Salvaged, item: Item, out: &mut [u8]) -> Salvaged
    requires { Short (form_of item).fields }
    ensures { Adds (item_line item ∷ []) told out.old result out.new }
{
    add(told, item.line(), out)
}
