// A text that grows by bytes.
ghost use Rattle.text.specs.Promises.{NonePromise, WithPromise, ByteToPromise, BytesToPromise, PutPromise};

use crate::Text;

impl Text {
    // No bytes.
    pub fn none() -> Text
        ensures { NonePromise result }
    {
        Text {
            bytes: [0; 40],
            len: 0,
        }
    }

    // One byte more; a full text stays as it is.
    pub fn with(mut self, b: u8) -> Text
        ensures { WithPromise self b result }
    {
        if self.len < 40 {
            self.bytes[self.len] = b;
            self.len += 1;
        }
        self
    }

    // A byte to a slice at a place, and the place behind it; a full slice stays as it is.
    pub fn byte_to(out: &mut [u8], at: usize, b: u8) -> usize
        ensures { ByteToPromise out.old at b result out.new }
    {
        if at >= out.len() {
            return at;
        }
        out[at] = b;
        at + 1
    }

    // Bytes to a slice from a place on, and the place behind them; those that find none are left out.
    pub fn bytes_to(out: &mut [u8], at: usize, bytes: &[u8]) -> usize
        ensures { BytesToPromise out.old at bytes.now result out.new }
    {
        let mut to = at;
        for b in bytes {
            to = Text::byte_to(out, to, *b);
        }
        to
    }

    // To a slice from a place on, and whether there was room.
    pub fn put(self, out: &mut [u8], at: usize) -> bool
        ensures { PutPromise self at out.old result out.new }
    {
        let n = self.len;
        if 40 < n || out.len() < n || out.len() - n < at {
            return false;
        }
        out[at..at + n].copy_from_slice(&self.bytes[..n]);
        true
    }
}
