// Requests: the number of a function and its arguments.
use super::record;
use super::record::Words;
use layouts::nest::Direction;

// The bytes stand behind each other in the record: those that were given last, and before them the first, if there are two.
#[derive(Clone, Copy)]
pub(crate) struct Request<'a> {
    pub function: u64,
    pub x: Number,
    pub y: Number,
    pub s: &'a [u8],
}

// The request of a record.
pub(crate) fn of<'a>(words: &Words, record: &'a [u8]) -> Request<'a> {
    Request {
        function: words[0],
        x: Number(words[1]),
        y: Number(words[2]),
        s: record::part(record, words[10], words[11]),
    }
}

// A number of a record. It is taken as the type that it has. That it is of this type was tested where it was read; here what is beyond is cut
// off, so that nothing has to be shown.
#[derive(Clone, Copy, Debug, PartialEq, Eq)]
pub(crate) struct Number(pub u64);

impl Number {
    pub(crate) fn u8(self) -> u8 {
        (self.0 & 0xFF) as u8
    }

    pub(crate) fn u16(self) -> u16 {
        (self.0 & 0xFFFF) as u16
    }

    pub(crate) fn usize(self) -> usize {
        self.0 as usize
    }

    // By the number that the request's word has in the list of names.
    pub(crate) fn direction(self) -> Direction {
        match self.0 {
            0 => Direction::Command,
            _ => Direction::Response,
        }
    }
}
