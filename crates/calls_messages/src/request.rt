// Requests: the number of a function and its arguments.
use super::record;
use super::record::Words;

#[derive(Clone, Copy)]
pub(crate) struct Request<'a> {
    pub function: u64,
    pub numbers: [Number; 8],
    // the bytes that were given first, if there are two, and those that were given last
    pub first: &'a [u8],
    pub s: &'a [u8],
}

impl Request<'_> {
    pub(crate) fn kind(&self) -> u8 {
        self.numbers[0].u8()
    }

    pub(crate) fn place(&self) -> usize {
        self.numbers[1].usize()
    }
}

// The request of a record.
pub(crate) fn of<'a>(words: &Words, record: &'a [u8]) -> Request<'a> {
    let mut numbers = [Number(0); 8];
    for (number, word) in numbers.iter_mut().zip(&words[1..9]) {
        *number = Number(*word);
    }
    Request {
        function: words[0],
        numbers,
        first: record::part(record, 112, words[10]),
        s: record::part(record, words[10], words[11]),
    }
}

// A number of a record. It is taken as the type that it has. That it is of this type was tested where it was read; here what is beyond is cut
// off, so that nothing has to be shown. Of a number below zero it is the other bits.
#[derive(Clone, Copy, Debug, PartialEq, Eq)]
pub(crate) struct Number(pub u64);

impl Number {
    pub(crate) fn truth(self) -> bool {
        self.0 == 1
    }

    pub(crate) fn u8(self) -> u8 {
        (self.0 & 0xFF) as u8
    }

    pub(crate) fn u16(self) -> u16 {
        (self.0 & 0xFFFF) as u16
    }

    pub(crate) fn u32(self) -> u32 {
        (self.0 & 0xFFFF_FFFF) as u32
    }

    pub(crate) fn usize(self) -> usize {
        self.0 as usize
    }

    pub(crate) fn i16(self) -> i16 {
        self.with_sign(1 << 15).u16().cast_signed()
    }

    // A number from a type's sign on is below zero, also where the sign is cut off.
    fn with_sign(self, sign: u64) -> Number {
        if self.0 < sign {
            self
        } else {
            Number(self.0 | sign)
        }
    }
}
