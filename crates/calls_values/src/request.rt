// Requests: the number of a function and its arguments.
use super::record;
use super::record::Words;

// The numbers are taken as the types that they have. That they are of these types was tested where they were read; here what is beyond is cut
// off, so that nothing has to be shown.
#[derive(Clone, Copy)]
pub(crate) struct Request<'a> {
    pub function: u64,
    pub x: Number,
    pub y: Number,
    pub z: Number,
    // the bytes that were given first, if there are two, and those that were given last
    pub first: &'a [u8],
    pub s: &'a [u8],
}

// The request of a record.
pub(crate) fn of<'a>(words: &Words, record: &'a [u8]) -> Request<'a> {
    Request {
        function: words[0],
        x: Number(words[1]),
        y: Number(words[2]),
        z: Number(words[3]),
        first: record::part(record, 112, words[10]),
        s: record::part(record, words[10], words[11]),
    }
}

// A number of a record. Of a number below zero it is the other bits.
#[derive(Clone, Copy, Debug, PartialEq, Eq)]
pub(crate) struct Number(pub u64);

impl Number {
    pub(crate) fn truth(self) -> bool {
        self.0 == 1
    }

    pub(crate) fn u8(self) -> u8 {
        (self.0 & 0xFF) as u8
    }

    pub(crate) fn u16(self) -> u16 {
        (self.0 & 0xFFFF) as u16
    }

    pub(crate) fn u32(self) -> u32 {
        (self.0 & 0xFFFF_FFFF) as u32
    }

    pub(crate) fn usize(self) -> usize {
        self.0 as usize
    }

    pub(crate) fn i16(self) -> i16 {
        self.with_sign(1 << 15).u16().cast_signed()
    }

    pub(crate) fn i32(self) -> i32 {
        self.with_sign(1 << 31).u32().cast_signed()
    }

    pub(crate) fn i64(self) -> i64 {
        self.0.cast_signed()
    }

    // A number from a type's sign on is below zero, also where the sign is cut off.
    fn with_sign(self, sign: u64) -> Number {
        if self.0 < sign {
            self
        } else {
            Number(self.0 | sign)
        }
    }
}
