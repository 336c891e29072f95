// The box: steps.
use crate::{Stand, draws, mixes};
use ballbox::{BallBox, Event, Excess, Going, Memory, Pair, Settings, Sums, Track};

pub(crate) fn first() -> Stand<BallBox> {
    Stand {
        sum: 0,
        next: BallBox::fresh(),
    }
}

fn any_settings(call: u64) -> Settings {
    Settings {
        format: draws::letter(call, 60),
        mode: draws::mode(call, 61),
        buttons: draws::byte(call, 62, 9),
    }
}

fn any_track(call: u64) -> Track {
    Track {
        counter: Pair {
            x: draws::movement(call, 63),
            y: draws::movement(call, 64),
        },
        position: Pair {
            x: draws::position(call, 65),
            y: draws::position(call, 66),
        },
        last: Pair {
            x: draws::position(call, 67),
            y: draws::position(call, 68),
        },
    }
}

fn any_going(call: u64) -> Going {
    Going {
        length: draws::byte(call, 73, 6),
        sent: draws::byte(call, 74, 6),
        bytes: [
            draws::byte(call, 70, 256),
            draws::byte(call, 71, 256),
            draws::byte(call, 72, 256),
            0,
            0,
        ],
    }
}

fn any_memory(call: u64) -> Memory {
    Memory {
        states: [
            draws::byte(call, 76, 8),
            draws::byte(call, 77, 9),
            0,
            0,
            0,
            0,
            0,
            0,
        ],
        count: draws::byte(call, 78, 10),
        showing: draws::mark(call, 84, 8) as u8,
    }
}

fn any_sums(call: u64) -> Sums {
    Sums {
        limit: Excess {
            x: draws::sum(call, 79),
            y: draws::sum(call, 80),
        },
        counter: Excess {
            x: draws::sum(call, 81),
            y: draws::sum(call, 82),
        },
    }
}

// A fresh box of which one part or more is any, so that it is seldom good.
fn any(call: u64) -> BallBox {
    let fresh = BallBox::fresh();
    BallBox {
        settings: any_settings(call),
        track: any_track(call),
        going: if draws::mark(call, 69, 4) {
            any_going(call)
        } else {
            fresh.going
        },
        memory: if draws::mark(call, 75, 4) {
            any_memory(call)
        } else {
            fresh.memory
        },
        sums: any_sums(call),
        due: draws::mark(call, 85, 2) as u8,
        dormant: draws::mark(call, 86, 8) as u8,
    }
}

// The box of a call: a fresh one, any, or the one that came back before.
fn chosen(last: BallBox, call: u64) -> BallBox {
    match draws::drawn(call, 88, 128) {
        0..=5 => BallBox::fresh(),
        6 | 7 => any(call),
        _ => last,
    }
}

fn pair(h: u64, p: Pair) -> u64 {
    mixes::signed(mixes::signed(h, p.x), p.y)
}

fn excess(h: u64, e: Excess) -> u64 {
    mixes::long(mixes::long(h, e.x), e.y)
}

fn mixed(h: u64, ball: BallBox) -> u64 {
    let s = ball.settings;
    let t = ball.track;
    let g = ball.going;
    let r = ball.memory;
    let sums = ball.sums;
    let set = mixes::byte(mixes::byte(mixes::byte(h, s.format), s.mode), s.buttons);
    let track = pair(pair(pair(set, t.counter), t.position), t.last);
    let going = mixes::bytes(mixes::byte(mixes::byte(track, g.length), g.sent), &g.bytes);
    let memory = mixes::byte(
        mixes::byte(mixes::bytes(going, &r.states), r.count),
        r.showing,
    );
    let thrown = excess(excess(memory, sums.limit), sums.counter);
    mixes::byte(mixes::byte(thrown, ball.due), ball.dormant)
}

fn event(call: u64) -> Event {
    match draws::drawn(call, 89, 6) {
        0 => Event::Motion(draws::movement(call, 90), draws::movement(call, 91)),
        1 => Event::Buttons(draws::byte(call, 92, 9)),
        2 => Event::Host(draws::host(call, 93)),
        3 => Event::Latch,
        4 => Event::Send,
        _ => Event::Period,
    }
}

// How many words, and the word.
fn sent(h: u64, count: u8, word: u16) -> u64 {
    mixes::number(mixes::number(h, count as u64), word as u64)
}

// One event.
pub(crate) fn turn(last: Stand<BallBox>, call: u64) -> Stand<BallBox> {
    let ball = chosen(last.next, call);
    let s = ball.step(event(call));
    let next = s.next;
    Stand {
        sum: mixed(sent(mixes::byte(last.sum, s.refusal), s.sent, s.word), next),
        next: next,
    }
}
