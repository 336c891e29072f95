// The Digital VSXXX puck: the ball box in S, with the commands R, D, P and T alone, and its self-test. Here stand its parts and what a user calls.
#![tactic(auto)]

ghost use Rattle.std.specs.Prelude.{◌≡◌};
ghost use Rattle.wire.specs.Refusals.{number_of};
ghost use Rattle.puck.specs.Device.{refused};
ghost use Rattle.puck.specs.Promises.{stepped, MadePromise, StepPromise};

use ballbox::{BallBox, Event};
use wire::Refusal;

mod good;
mod rules;

// The self-test that is going: how many of its four bytes are left to be sent, 0 where none is going, and the buttons as they were at its start. C has this
// struct.
#[repr(C)]
#[derive(Clone, Copy, Drop)]
pub struct Testing {
    pub left: u8,
    pub buttons: u8,
}

// A box in S, and beside it the self-test, the firmware's revision and the maker's location.
#[repr(C)]
#[derive(Clone, Copy, Drop)]
pub struct Puck {
    pub ball: BallBox,
    pub test: Testing,
    pub revision: u8,
    pub maker: u8,
}

// What a step hands back, as the box's: the number of the refusal, how many words are sent, the word, 0, and the device.
#[repr(C)]
#[derive(Clone, Copy, Drop)]
pub struct PuckStepped {
    pub refusal: u8,
    pub sent: u8,
    pub word: u16,
    pub rest: u32,
    pub next: Puck,
}

impl Puck {
    // Power-up, with the buttons, modulo 8; the revision is taken modulo 16 and the maker modulo 8. A self-test starts.
    pub fn made(buttons: u8, revision: u8, maker: u8) -> Puck
        ensures { MadePromise buttons revision maker result }
    {
        rules::powered(buttons % 8, revision % 16, maker % 8)
    }

    // The old device and no word.
    fn refused(self, refusal: Refusal) -> PuckStepped
        ensures { result ≡ stepped (refused (number_of refusal) self) }
    {
        PuckStepped {
            refusal: refusal.number(),
            sent: 0,
            word: 0,
            rest: 0,
            next: self,
        }
    }

    // An event of the box's: the refusals in their order, and then the rules.
    #[tactic(auto, unfolding(crate::specs::Promises::step_of, crate::specs::Rules::rules))]
    pub fn step(self, event: Event) -> PuckStepped
        ensures { StepPromise self event result }
    {
        if !self.good() {
            return self.refused(Refusal::BadState);
        }
        if self.testing() {
            self.in_test(event)
        } else {
            self.out_of_test(event)
        }
    }
}
