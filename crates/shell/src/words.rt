// The system's words for an error.
ghost use Rattle.std.specs.Prelude.{◌≤◌, length};

use std::fmt;
use std::fmt::Write;
use std::io::Error;

// An error's text, or the front of one that is longer.
#[derive(Drop)]
pub struct Words {
    text: [u8; 128],
    len: usize,
    ghost within: { len ≤ 128 },
}

impl Words {
    pub fn of(why: Error) -> Words {
        let mut words = Words {
            text: [0; 128],
            len: 0,
        };
        let _ = write!(words, "{why}");
        words
    }

    // The words alone: an error of the system has its number behind them.
    pub fn bytes(&self) -> &[u8] {
        let all = &self.text[..self.len];
        &all[..front(all, b" (os error ")]
    }
}

impl Write for Words {
    fn write_str(&mut self, s: &str) -> fmt::Result {
        for b in s.as_bytes() {
            if self.len < 128 {
                self.text[self.len] = *b;
                self.len += 1;
            }
        }
        Ok(())
    }
}

// How many bytes stand before a part, or all where it is not there.
fn front(all: &[u8], part: &[u8]) -> usize
    ensures { result ≤ length all.now }
{
    for i in 0..all.len() {
        if all[i..].starts_with(part) {
            return i;
        }
    }
    all.len()
}
