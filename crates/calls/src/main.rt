// calls: calls of the functions below those for C, with states, words and rooms that look random, wrong ones too: long
// reads, steps of the box, pieces for the lister and ends. The C program of the same name hands the same to the C
// functions and must write the same: of each one number over all that the calls gave back.
#![tactic(auto)]

mod boxes;
mod draws;
mod listers;
mod mixes;
mod print;
mod readers;

// The sum so far, and what came back.
#[derive(Clone, Copy, Drop)]
pub(crate) struct Stand<T> {
    sum: u64,
    next: T,
}

fn main(rt: HostRuntime) {
    let mut read = readers::first();
    let mut stepped = boxes::first();
    let mut listed = listers::first();
    for call in 0..100_000 {
        read = readers::turn(read, call);
        stepped = boxes::turn(stepped, call);
        listed = listers::turn(listed, call);
    }
    print::line(rt.stdout(), b"istrolf_reader_read", read.sum);
    print::line(rt.stdout(), b"istrolf_box", stepped.sum);
    print::line(rt.stdout(), b"istrolf_lister", listed.sum);
}
