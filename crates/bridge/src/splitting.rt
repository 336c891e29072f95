// A movement, split into V reports.
ghost use Rattle.std.specs.Prelude.{◌≡◌, ◌++◌, ◌*◌, ◌<◌, ◌≤◌, length, drop};
ghost use Rattle.wire.specs.Table.{bytes_of};
ghost use Rattle.wire.specs.declared.Format.TheVariants.{Microsoft};
ghost use Rattle.bridge.specs.Splitting.{Near, NearMove, carries, leaves, needs, count_of, left_and_right, rest, report_v, split, bytes_all};

use crate::Move;
use wire::{FORMAT_V, Report};

// As much of a movement as a V report can carry.
fn carried(d: i32) -> i16
    ensures { result ≡ carries d }
{
    if d < -127 {
        return -127;
    }
    if 127 < d {
        return 127;
    }
    d as i16
}

// What it leaves.
fn left(d: i32) -> i32
    requires { Near d }
    ensures { result ≡ leaves d }
{
    if d < -127 {
        return d + 127;
    }
    if 127 < d {
        return d - 127;
    }
    0
}

// How many V reports an axis needs.
fn needed(d: i32) -> usize
    requires { Near d }
    ensures { result ≡ needs d }
{
    (d.unsigned_abs() as usize + 126) / 127
}

// The buttons of a V report.
fn left_and_right(buttons: u8) -> u8
    ensures { result ≡ left_and_right buttons }
{
    buttons / 4 % 2 * 4 + buttons % 2
}

impl Move {
    // How many V reports it becomes.
    pub(crate) fn count(self) -> usize
        requires { NearMove self }
        ensures { result ≡ count_of self }
    {
        needed(self.x).max(needed(self.y)).max(1)
    }

    // What a V report leaves of it.
    fn rest(self) -> Move
        requires { NearMove self }
        ensures { result ≡ rest self }
    {
        Move {
            x: left(self.x),
            y: left(self.y),
        }
    }

    // The V report that carries as much of it as it can, and its bytes to the front of a slice.
    fn report(self, buttons: u8) -> Report
        ensures { result ≡ report_v buttons self }
    {
        Report {
            buttons: left_and_right(buttons),
            x1: carried(self.x),
            y1: carried(self.y),
            x2: 0,
            y2: 0,
        }
    }

    fn write(self, buttons: u8, out: &mut [u8])
        requires { 3 ≤ length out.old }
        ensures { out.new ≡ bytes_of Microsoft (report_v buttons self) ++ drop 3 out.old }
    {
        let report = self.report(buttons);
        let _ = wire::encode(FORMAT_V, report, out);
    }
}

// So many V reports of a movement, to the front of a slice.
pub(crate) fn put(buttons: u8, count: usize, m: Move, out: &mut [u8])
    requires { NearMove m × (3 * count ≤ length out.old) }
    ensures { out.new ≡ bytes_all (split count buttons m) ++ drop (3 * count) out.old }
{
    let mut left = m;
    for n in 0..count {
        left.write(buttons, &mut out[3 * n..]);
        left = left.rest();
    }
}
