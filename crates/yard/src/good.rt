// The rules of a good check.
ghost use Rattle.std.specs.Prelude.{◌≡◌, ◌<◌};
ghost use Rattle.yard.specs.Good.{gone_rightly, good};

use crate::Yard;
use crate::stands::stands;

impl Yard {
    // Of a report that is going: whether its first byte can begin one, and its last one stand in its place.
    #[tactic(auto, unfolding(crate::specs::Good::gone_rightly))]
    fn gone_rightly(self) -> bool
        requires { 0 < self.count }
        ensures { result ≡ gone_rightly self }
    {
        let begun = stands(self.format, 0, 0, 0, self.first);
        if self.count == 1 {
            begun & (self.last == self.first)
        } else {
            begun & stands(self.format, self.count - 1, self.first, 0, self.last)
        }
    }

    // Whether the check is good: a step of any other is refused with 6.
    #[tactic(auto, using(wire::proofs::Letters::known_below), unfolding(crate::specs::Good::good))]
    pub(crate) fn good(self) -> bool
        ensures { result ≡ good self }
    {
        let below = ((self.count as usize) < wire::size(self.format)) & (self.ended <= 1);
        if self.count == 0 {
            below & (self.first == 0) & (self.last == 0)
        } else {
            below & (self.ended != 1) & self.gone_rightly()
        }
    }
}
