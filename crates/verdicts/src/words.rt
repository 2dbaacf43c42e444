// Verdicts in words. (Not by `Display`: the longest capture has 65,534 lines, and each would take more than half as long again.)
use super::room::Room;
use digits::hex;
use frames::kinds::Kind;
use layouts::{Failure, Test};

// The test of a kind's frame that failed first, and the values of a failed check.
#[derive(Clone, Copy, Debug, PartialEq, Eq)]
pub(crate) struct Failed {
    pub kind: Kind,
    pub failure: Failure,
}

impl Failed {
    pub(crate) fn put(self, room: &mut Room<'_>) {
        match self.failure.test {
            Test::Start => start(self.kind, room),
            Test::Length => length(self.kind, room),
            Test::Fields => fields(self.kind, room),
            Test::First => {
                room.put(b"first check: ");
                values(has_16_bits(self.kind), self.failure, room);
            }
            Test::Second => {
                room.put(b"second check: ");
                values(false, self.failure, room);
            }
        }
    }
}

// How a frame of a kind begins.
fn start(kind: Kind, room: &mut Room<'_>) {
    match kind {
        Kind::Nikobus => room.put(b"start: no $, #N or #E1 stands here"),
        Kind::NestCommand => room.put(b"start: no D5 AA 96 stands here"),
        Kind::NestResponse => room.put(b"start: no D5 D5 AA 96 stands here"),
        Kind::Nibe => room.put(b"start: no C0 stands here"),
        Kind::Homiq => room.put(b"start: no <; stands here"),
    }
}

// What a length may be beside too great for the capture.
fn length(kind: Kind, room: &mut Room<'_>) {
    match kind {
        Kind::Nikobus => room.put(
            b"length: LL is not an even number from 0C to FE, or the capture ends inside the frame",
        ),
        Kind::NestCommand | Kind::NestResponse => {
            room.put(b"length: the length is above 1,024, or the capture ends inside the frame")
        }
        Kind::Nibe | Kind::Homiq => room.put(b"length: the capture ends inside the frame"),
    }
}

// What is wrong with the fields.
fn fields(kind: Kind, room: &mut Room<'_>) {
    match kind {
        Kind::Nikobus => {
            room.put(b"fields: a character is no upper-case hex digit, or CR is missing")
        }
        Kind::NestCommand | Kind::NestResponse => room.put(b"fields: "),
        Kind::Nibe => room.put(b"fields: the command is not 60, 62, 68, 69, 6A, 6B or 6C"),
        Kind::Homiq => room.put(
            b"fields: a field is not as it must be, or the frame does not end with ;> CR LF",
        ),
    }
}

// The value that was found and the one that was expected.
fn values(wide: bool, failure: Failure, room: &mut Room<'_>) {
    room.put(b"found ");
    value(wide, failure.found, room);
    room.put(b", expected ");
    value(wide, failure.expected, room);
}

// A check value in hex, as wide as its check, and in decimal.
fn value(wide: bool, v: u16, room: &mut Room<'_>) {
    let four = hex::four_digits(v);
    if wide {
        room.put(&four);
    } else {
        room.put(&four[2..4]);
    }
    room.put(b" (");
    room.put_whole(v as u64);
    room.put(b")");
}

// Whether the first check of a kind has 16 bits; else it has 8.
fn has_16_bits(kind: Kind) -> bool {
    matches!(kind, Kind::Nikobus | Kind::NestCommand | Kind::NestResponse)
}
