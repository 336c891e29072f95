// The box for C: events in, line words out.
ghost use Rattle.ballbox.specs.declared.Event.TheVariants.{Motion, Buttons, Host, Latch, Send, Period};
ghost use Rattle.istrolf.specs.Promises.{FreshBoxPromise, BoxStepPromise};

use ballbox::{BallBox, Stepped};

// A fresh box.
#[unsafe(no_mangle)]
pub extern "C" fn istrolf_box_fresh() -> BallBox
    ensures { FreshBoxPromise result }
{
    istrolf::boxes::istrolf_box_fresh()
}

// The ball moved.
#[unsafe(no_mangle)]
pub extern "C" fn istrolf_box_motion(ball: BallBox, dx: i16, dy: i16) -> Stepped
    ensures { BoxStepPromise ball (Motion dx dy) result }
{
    istrolf::boxes::istrolf_box_motion(ball, dx, dy)
}

// The buttons are now 4L+2M+R.
#[unsafe(no_mangle)]
pub extern "C" fn istrolf_box_buttons(ball: BallBox, buttons: u8) -> Stepped
    ensures { BoxStepPromise ball (Buttons buttons) result }
{
    istrolf::boxes::istrolf_box_buttons(ball, buttons)
}

// A byte of the host's.
#[unsafe(no_mangle)]
pub extern "C" fn istrolf_box_host(ball: BallBox, byte: u8) -> Stepped
    ensures { BoxStepPromise ball (Host byte) result }
{
    istrolf::boxes::istrolf_box_host(ball, byte)
}

// Latching, when nothing is going.
#[unsafe(no_mangle)]
pub extern "C" fn istrolf_box_latch(ball: BallBox) -> Stepped
    ensures { BoxStepPromise ball Latch result }
{
    istrolf::boxes::istrolf_box_latch(ball)
}

// The next byte is sent.
#[unsafe(no_mangle)]
pub extern "C" fn istrolf_box_send(ball: BallBox) -> Stepped
    ensures { BoxStepPromise ball Send result }
{
    istrolf::boxes::istrolf_box_send(ball)
}

// The report interval is over.
#[unsafe(no_mangle)]
pub extern "C" fn istrolf_box_period(ball: BallBox) -> Stepped
    ensures { BoxStepPromise ball Period result }
{
    istrolf::boxes::istrolf_box_period(ball)
}
