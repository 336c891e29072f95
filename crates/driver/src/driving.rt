// What lines of events do to a box, and what is recorded of them: where a line is the last, its record alone, and the box is as it was.
ghost use Rattle.std.specs.Prelude.{◌≡◌, map};
ghost use Rattle.ballbox.specs.Promises.{outcome, words_of, step_of};
ghost use Rattle.driver.specs.Recorded.{records_in};
ghost use Rattle.driver.specs.Driving.{leaves, event_done, slot, first_line, later_line, line_done};
ghost use Rattle.driver.specs.Feeding.{besides};
ghost use Rattle.driver.specs.declared.Record.TheVariants.{Word};

use crate::{Done, MOST_LINES, Order, Record};
use ballbox::{BallBox, Event, Stepped};

// The word that a step gives, if any.
pub(crate) fn given(sent: u8, word: u16) -> Option<Record>
    ensures { records_in result ≡ map Word (words_of sent word) }
{
    if sent == 1 {
        Some(Record::Word(word))
    } else {
        None
    }
}

// An event that is obeyed, or one that the box refuses.
fn event_done(n: u32, ball: BallBox, event: Event) -> Result<Done, Record>
    ensures { leaves ball result ≡ event_done n ball (step_of ball event) }
{
    let step = ball.step(event);
    if step.refusal > 0 {
        return Err(Record::Bad(n));
    }
    Ok(Done {
        next: step.next,
        given: given(step.sent, step.word),
    })
}

// A Latch and a Send.
pub(crate) fn slot(ball: BallBox) -> Stepped
    ensures { outcome result ≡ slot ball }
{
    let latched = ball.step(Event::Latch);
    latched.next.step(Event::Send)
}

// The format, which comes first.
fn first_line(ball: BallBox, order: Order) -> Result<Done, Record>
    ensures { leaves ball result ≡ first_line ball (besides order) }
{
    match order {
        Order::Format(f) => {
            let fresh = BallBox::fresh();
            let step = fresh.step(Event::Host(f));
            Ok(Done {
                next: step.next,
                given: Some(Record::Format(f)),
            })
        }
        Order::Bad | Order::Single(_) | Order::Slots(_) => Err(Record::Bad(1)),
    }
}

// Line n, behind the first. The slots that it asks for are still to come.
fn later_line(n: u32, ball: BallBox, order: Order) -> Result<Done, Record>
    ensures { leaves ball result ≡ later_line n ball (besides order) }
{
    match order {
        Order::Bad | Order::Format(_) => Err(Record::Bad(n)),
        Order::Single(event) => event_done(n, ball, event),
        Order::Slots(_) => Ok(Done {
            next: ball,
            given: None,
        }),
    }
}

// The line behind n others, and no line too many.
pub(crate) fn line_done(n: u32, ball: BallBox, order: Order) -> Result<Done, Record>
    ensures { leaves ball result ≡ line_done n ball (besides order) }
{
    if n >= MOST_LINES {
        Err(Record::Over)
    } else if n == 0 {
        first_line(ball, order)
    } else {
        later_line(n + 1, ball, order)
    }
}
