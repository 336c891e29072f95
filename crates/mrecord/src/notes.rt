// Notes for whoever asks when: once a second the number of the line and the time, in UTC, to descriptor 3.
ghost use Rattle.std.specs.Prelude.{◌+◌, ◌<◌, ◌≤◌};

use text::Text;

// The last second of the year 9999.
const LAST: i64 = 253_402_300_799;

// A day and its year, or its month.
#[derive(Clone, Copy, Drop)]
struct Day {
    of: u32,
    day: u32,
}

fn is_leap(year: u32) -> bool {
    year % 4 == 0 && (year % 100 != 0 || year % 400 == 0)
}

fn year_days(year: u32) -> u32
    ensures { 365 ≤ result }
{
    if is_leap(year) { 366 } else { 365 }
}

fn month_days(year: u32, month: u32) -> u32
    ensures { 1 ≤ result }
{
    match month {
        2 => year_days(year) - 337,
        4 | 6 | 9 | 11 => 30,
        _ => 31,
    }
}

// The year of a day since 1970 began, and which of its days that is, from 0 on.
fn year_of(since: u32) -> Day
    requires { since < 3000000 }
    ensures { result.of + result.day ≤ 3002000 }
{
    let mut year: u32 = 1970;
    let mut day = since;
    // It goes by the days that are left, and no year is the last one: no range counts the years.
    'years: loop {
        let length = year_days(year);
        if day < length {
            return Day { of: year, day };
        }
        day -= length;
        year += 1;
    }
}

// The month of a day of a year, and which of its days that is, from 1 on.
fn month_of(year: u32, since: u32) -> Day
    requires { since < 3002001 }
{
    let mut day = since;
    for month in 1..12 {
        let length = month_days(year, month);
        if day < length {
            return Day {
                of: month,
                day: day + 1,
            };
        }
        day -= length;
    }
    Day {
        of: 12,
        day: day + 1,
    }
}

// A number of so many digits and the byte behind it.
fn number_to(out: &mut [u8], at: usize, digits: usize, number: u32, behind: u8) -> usize {
    let next = Text::decimal_to(out, at, digits, number as i64);
    Text::byte_to(out, next, behind)
}

// A line and a time, such as 123, a tab and 2026-11-17T09:20:00Z.
fn note_to(out: &mut [u8], line: u32, days: u32, seconds: u32) -> usize
    requires { days < 3000000 }
{
    let years = year_of(days);
    let months = month_of(years.of, years.day);
    let mut at = number_to(out, 0, 1, line, b'\t');
    at = number_to(out, at, 4, years.of, b'-');
    at = number_to(out, at, 2, months.of, b'-');
    at = number_to(out, at, 2, months.day, b'T');
    at = number_to(out, at, 2, seconds / 3600, b':');
    at = number_to(out, at, 2, seconds / 60 % 60, b':');
    at = number_to(out, at, 2, seconds % 60, b'Z');
    Text::byte_to(out, at, b'\n')
}

// A second of a year that has four digits; 0 for any other.
fn second_of(now: i64) -> u64
    ensures { result < 253402300800 }
{
    if 0 <= now && now <= LAST {
        now as u64
    } else {
        0
    }
}

// A turn at a second: a note, where it is not that of the last one. The second of the last note is given back.
pub(crate) fn noted(left: u32, last: i64, now: i64) -> i64 {
    if now == last || left > 999_999 {
        return last;
    }
    let second = second_of(now);
    let mut out = [0u8; 64];
    let n = note_to(
        &mut out,
        999_999 - left,
        (second / 86400) as u32,
        (second % 86400) as u32,
    );
    if n <= 64 {
        shell::note(&out[..n]);
    }
    now
}
