// The room in which the lines of an answer lie until they are written out.
use std::io::Write;

// No line is longer.
const LONGEST_LINE: usize = 256;

// A lent room, with so many bytes of lines at its front. There is room for the line that is being put.
#[derive(Drop)]
pub(crate) struct Room<'a> {
    bytes: &'a mut [u8],
    len: usize,
}

impl<'a> Room<'a> {
    pub(crate) fn new(bytes: &'a mut [u8]) -> Room<'a> {
        Room { bytes, len: 0 }
    }
}

impl Room<'_> {
    pub(crate) fn put(&mut self, s: &[u8]) {
        self.len = puts::bytes(s, self.bytes, self.len);
    }

    pub(crate) fn put_whole(&mut self, n: u64) {
        self.len = puts::whole(n, self.bytes, self.len);
    }

    // Writes the lines if there might not be room for another.
    pub(crate) fn make_room(&mut self, to: &mut impl Write) {
        if self.bytes.len().saturating_sub(self.len) < LONGEST_LINE {
            self.print(to);
        }
    }

    // Writes the lines. The status tells nothing: what could not be written shows by the last line, which is not there.
    pub(crate) fn print(&mut self, to: &mut impl Write) {
        let n = self.len;
        let _ = to.write_all(self.bytes.get(..n).unwrap_or_default());
        self.len = 0;
    }
}
