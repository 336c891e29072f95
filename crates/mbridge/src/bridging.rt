// How far a recording is bridged.
ghost use Rattle.std.specs.Prelude.{◌≡◌, true};
ghost use Rattle.bridge.specs.Good.{good};

use bridge::Bridge;
use listing::Scanner;

// The scanner of the recording, and the bridge of its format, which is good.
#[derive(Clone, Copy, Drop)]
pub(crate) struct Bridging {
    pub scanner: Scanner,
    pub bridge: Bridge,
    ghost sound: { good bridge ≡ true },
}
