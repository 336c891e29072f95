// The watch for C: it is the library's own, by value, and each function is one call.
ghost use Rattle.istrolf.specs.Promises.{FreshWatchPromise, KnowingWatchPromise, WatchHeardPromise, WatchOverPromise};

use saves::{Told, Watch, Watched};
use wire::Report;

// A watch that has seen nothing.
pub fn istrolf_watch_fresh() -> Watch
    ensures { FreshWatchPromise result }
{
    Watch::fresh()
}

// A watch that was told the buttons.
pub fn istrolf_watch_knowing(buttons: u8) -> Watch
    ensures { KnowingWatchPromise buttons result }
{
    Watch::knowing(buttons)
}

// A report.
pub fn istrolf_watch_heard(watch: Watch, report: Report) -> Told
    ensures { WatchHeardPromise watch report result }
{
    watch.heard(report)
}

// The numbers that a long read wrote.
pub fn istrolf_watch_over(watch: Watch, numbers: &[i16]) -> Watched
    ensures { WatchOverPromise watch numbers.now result }
{
    watch.over(numbers)
}
