// recordings: recordings held here or made by loops, each listed in several cuts.
#![tactic(auto)]

mod cases;
mod cuts;
mod formats;
mod long;
mod making;

fn main(rt: HostRuntime) {
    cases::first_lines(rt.stdout());
    cases::later_lines(rt.stdout());
    cases::decimals(rt.stdout());
    cases::words(rt.stdout());
    cases::pairs(rt.stdout());
    cases::ends(rt.stdout());
    formats::every_format(rt.stdout());
    long::last_lines(rt.stdout());
}
