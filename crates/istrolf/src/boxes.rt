// The box for C: events in, line words out.
ghost use Rattle.ballbox.specs.declared.Event.TheVariants.{Motion, Buttons, Host, Latch, Send, Period};
ghost use Rattle.istrolf.specs.Promises.{FreshBoxPromise, BoxStepPromise};

use ballbox::{BallBox, Stepped};

// A fresh box.
pub fn istrolf_box_fresh() -> BallBox
    ensures { FreshBoxPromise result }
{
    BallBox::fresh()
}

// The ball moved.
pub fn istrolf_box_motion(ball: BallBox, dx: i16, dy: i16) -> Stepped
    ensures { BoxStepPromise ball (Motion dx dy) result }
{
    ball.motion(dx, dy)
}

// The buttons are now 4L+2M+R.
pub fn istrolf_box_buttons(ball: BallBox, buttons: u8) -> Stepped
    ensures { BoxStepPromise ball (Buttons buttons) result }
{
    ball.buttons(buttons)
}

// A byte of the host's.
pub fn istrolf_box_host(ball: BallBox, byte: u8) -> Stepped
    ensures { BoxStepPromise ball (Host byte) result }
{
    ball.host(byte)
}

// Latching, when nothing is going.
pub fn istrolf_box_latch(ball: BallBox) -> Stepped
    ensures { BoxStepPromise ball Latch result }
{
    ball.latch()
}

// The next byte is sent.
pub fn istrolf_box_send(ball: BallBox) -> Stepped
    ensures { BoxStepPromise ball Send result }
{
    ball.send()
}

// The report interval is over.
pub fn istrolf_box_period(ball: BallBox) -> Stepped
    ensures { BoxStepPromise ball Period result }
{
    ball.period()
}
