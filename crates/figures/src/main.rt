// figures: runs the figures of the paper, presses on a busy line, reports latched earlier than sent, what the limit threw away, the worked examples of the manuals, the VSXXX puck, and lines of reports in each format.
#![tactic(auto)]

mod apart;
mod box_runs;
mod lag;
mod lines;
mod manuals;
mod passes;
mod presses;
mod print;
mod pucks;
mod reports;
mod steps;

fn main(rt: HostRuntime) {
    box_runs::figures(rt.stdout());
    presses::runs(rt.stdout());
    apart::runs(rt.stdout());
    lag::runs(rt.stdout());
    manuals::examples(rt.stdout());
    pucks::runs(rt.stdout());
    lines::formats(rt.stdout());
}
