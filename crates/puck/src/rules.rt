// What differs from the box: the making, T, and the self-test.
ghost use Rattle.std.specs.Prelude.{◌≡◌, [], ◌∷◌, ◌-◌};
ghost use Rattle.vsxxx.specs.SelfTests.{test_bytes};
ghost use Rattle.wire.specs.Reading.{at};
ghost use Rattle.puck.specs.Device.{testing, test_of, powered_box, powered};
ghost use Rattle.puck.specs.Rules.{gives, is_boxes, as_box, by_box, by_t, less_one, test_byte, in_test, out_of_test};
ghost use Rattle.puck.specs.Promises.{stepped};

use crate::{Puck, PuckStepped, Testing};
use ballbox::{BallBox, Event, LETTER_P, MODE_D, MODE_R, Settings};
use wire::{BREAK, FORMAT_S, SUCCESS};

// The command that asks for the self-test.
const SELF_TEST: u8 = b'T';

// A byte that the box ignores.
const NO_COMMAND: u8 = 0;

// "device 2", and the error of a button that is down.
const DEVICE: u8 = 2;

const BUTTON_ERROR: u8 = 0x3D;

// A box in S and in prompt mode, of which all but the buttons is clear.
#[tactic(auto, unfolding(crate::specs::Device::powered_box, ballbox::specs::Box::fresh_box))]
fn powered_box(buttons: u8) -> BallBox
    ensures { result ≡ powered_box buttons }
{
    let settings = Settings {
        format: FORMAT_S,
        mode: MODE_D,
        buttons,
    };
    BallBox {
        settings,
        ..BallBox::fresh()
    }
}

// All but the buttons is clear, and a self-test starts.
#[tactic(auto, unfolding(crate::specs::Device::powered))]
pub(crate) fn powered(buttons: u8, revision: u8, maker: u8) -> Puck
    ensures { result ≡ powered buttons revision maker }
{
    Puck {
        ball: powered_box(buttons),
        test: Testing { left: 4, buttons },
        revision,
        maker,
    }
}

// The commands that are the box's too.
fn is_boxes(byte: u8) -> bool
    ensures { result ≡ is_boxes byte }
{
    matches!(byte, MODE_R | MODE_D | LETTER_P)
}

// An event as the box is handed it: any other byte of the host's is one that it ignores.
fn as_box(event: Event) -> Event
    ensures { result ≡ as_box event }
{
    match event {
        Event::Host(byte) => Event::Host(if is_boxes(byte) { byte } else { NO_COMMAND }),
        _ => event,
    }
}

// The next byte of a self-test of which so many are left.
fn byte_of_test(left: u8, revision: u8, maker: u8, buttons: u8) -> u8
    ensures { result ≡ at (4 - left) (test_bytes (test_of revision maker buttons)) }
{
    match left {
        0 => 0,
        1 => buttons % 8,
        2 => { if buttons == 0 { 0 } else { BUTTON_ERROR } }
        3 => maker % 8 * 16 + DEVICE,
        _ => 160 + revision % 16,
    }
}

impl Testing {
    // A byte has been sent; after the last none is going.
    fn less_one(self) -> Testing
        ensures { result ≡ less_one self }
    {
        if self.left <= 1 {
            Testing {
                left: 0,
                buttons: 0,
            }
        } else {
            Testing {
                left: self.left - 1,
                buttons: self.buttons,
            }
        }
    }
}

impl Puck {
    pub(crate) fn testing(self) -> bool
        ensures { result ≡ testing self }
    {
        0 < self.test.left
    }

    // The device, with a word or with none.
    fn quietly(self) -> PuckStepped
        ensures { result ≡ stepped (gives [] self) }
    {
        PuckStepped {
            refusal: SUCCESS,
            sent: 0,
            word: 0,
            rest: 0,
            next: self,
        }
    }

    fn gives(self, word: u16) -> PuckStepped
        ensures { result ≡ stepped (gives (word ∷ []) self) }
    {
        PuckStepped {
            refusal: SUCCESS,
            sent: 1,
            word: word,
            rest: 0,
            next: self,
        }
    }

    // The box's step.
    fn by_box(mut self, event: Event) -> PuckStepped
        ensures { result ≡ stepped (by_box self event) }
    {
        let s = self.ball.step(as_box(event));
        self.ball = s.next;
        PuckStepped {
            refusal: s.refusal,
            sent: s.sent,
            word: s.word,
            rest: s.rest,
            next: self,
        }
    }

    // T: what is going is broken off, all but the buttons is cleared, and a self-test starts.
    #[tactic(auto, unfolding(crate::specs::Rules::by_t))]
    fn by_t(self) -> PuckStepped
        ensures { result ≡ stepped (by_t self) }
    {
        let going = self.ball.going;
        let next = powered(self.ball.settings.buttons, self.revision, self.maker);
        if going.sent < going.length {
            next.gives(BREAK)
        } else {
            next.quietly()
        }
    }

    // A byte of the self-test is sent.
    fn test_byte(mut self) -> PuckStepped
        ensures { result ≡ stepped (test_byte self) }
    {
        let test = self.test;
        let byte = byte_of_test(test.left, self.revision, self.maker, test.buttons);
        self.test = test.less_one();
        self.gives(u16::from(byte))
    }

    // While a self-test is going, bytes of the host's do nothing.
    #[tactic(auto, unfolding(crate::specs::Rules::in_test))]
    pub(crate) fn in_test(self, event: Event) -> PuckStepped
        ensures { result ≡ stepped (in_test self event) }
    {
        match event {
            Event::Host(_) => self.quietly(),
            Event::Send => self.test_byte(),
            _ => self.by_box(event),
        }
    }

    // While none is going, the box's rules, but for T.
    #[tactic(auto, unfolding(crate::specs::Rules::out_of_test))]
    pub(crate) fn out_of_test(self, event: Event) -> PuckStepped
        ensures { result ≡ stepped (out_of_test self event) }
    {
        match event {
            Event::Host(SELF_TEST) => self.by_t(),
            _ => self.by_box(event),
        }
    }
}
