// A good device.
ghost use Rattle.std.specs.Prelude.{◌≡◌};
ghost use Rattle.puck.specs.Good.{follows, rests, good_test};
ghost use Rattle.puck.specs.Promises.{GoodPromise};

use crate::Puck;
use ballbox::{BallBox, MODE_D, MODE_R};
use wire::FORMAT_S;

// In S, in mode R or D, awake, with nothing or a report going.
#[tactic(auto, unfolding(crate::specs::Good::follows))]
fn follows(ball: BallBox) -> bool
    ensures { result ≡ follows ball }
{
    (ball.settings.format == FORMAT_S)
        & ((ball.settings.mode == MODE_R) | (ball.settings.mode == MODE_D))
        & (ball.dormant != 1)
        & ((ball.going.length == 0) | (ball.going.length == 3))
}

// Nothing is going, due or remembered, in prompt mode.
#[tactic(auto, unfolding(crate::specs::Good::rests))]
fn rests(ball: BallBox) -> bool
    ensures { result ≡ rests ball }
{
    (ball.going.length == 0)
        & (ball.settings.mode == MODE_D)
        & (ball.due != 1)
        & (ball.memory.count == 0)
}

impl Puck {
    // No self-test, or one to four of its bytes left, while the box rests.
    #[tactic(auto, unfolding(crate::specs::Good::good_test))]
    fn good_test(self) -> bool
        ensures { result ≡ good_test self }
    {
        let none = (self.test.left == 0) & (self.test.buttons == 0);
        let some = (0 < self.test.left) & (self.test.left <= 4) & (self.test.buttons <= 7);
        none | (some & rests(self.ball))
    }

    // Whether the device is good: a step of any other is refused with 6.
    #[tactic(auto, unfolding(crate::specs::Good::good))]
    pub fn good(self) -> bool
        ensures { GoodPromise self result }
    {
        self.ball.good()
            & follows(self.ball)
            & self.good_test()
            & (self.revision <= 15)
            & (self.maker <= 7)
    }
}
