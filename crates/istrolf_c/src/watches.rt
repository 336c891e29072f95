// The watch for C: it is the library's own, by value, and each function is one call.
ghost use Rattle.istrolf.specs.Promises.{FreshWatchPromise, KnowingWatchPromise, WatchHeardPromise, WatchOverPromise};

use saves::{Told, Watch, Watched};
use wire::Report;

// A watch that has seen nothing.
#[unsafe(no_mangle)]
pub extern "C" fn istrolf_watch_fresh() -> Watch
    ensures { FreshWatchPromise result }
{
    istrolf::watches::istrolf_watch_fresh()
}

// A watch that was told the buttons.
#[unsafe(no_mangle)]
pub extern "C" fn istrolf_watch_knowing(buttons: u8) -> Watch
    ensures { KnowingWatchPromise buttons result }
{
    istrolf::watches::istrolf_watch_knowing(buttons)
}

// A report.
#[unsafe(no_mangle)]
pub extern "C" fn istrolf_watch_heard(watch: Watch, report: Report) -> Told
    ensures { WatchHeardPromise watch report result }
{
    istrolf::watches::istrolf_watch_heard(watch, report)
}

// The numbers that a long read wrote.
#[unsafe(no_mangle)]
pub extern "C" fn istrolf_watch_over(watch: Watch, numbers: &[i16]) -> Watched
    ensures { WatchOverPromise watch numbers.now result }
{
    istrolf::watches::istrolf_watch_over(watch, numbers)
}
