// The kinds. Outside, a kind is a number; inside, it is a case of `Kind`, and what belongs to one kind is an arm of a `match` here.
ghost use Rattle.std.specs.Prelude.{false, ◌≡◌, ◌+◌, ◌≤◌, length, drop};
ghost use Rattle.layouts.specs.Paper.Judged.{Judged, frame_in, failed_in};
ghost use Rattle.frames.specs.Paper.Kinds as paper;
ghost use Rattle.frames.specs.Paper.Kinds.{Resolves, number_of, layout_of};
ghost use Rattle.frames.specs.Work.Frames.{frame_at, may_start};

use layouts::nest::Direction;
use layouts::{Failure, Frame, homiq, nest, nibe, nikobus};

// A bus and a direction.
#[derive(Clone, Copy, Debug, PartialEq, Eq)]
pub enum Kind {
    Nikobus,
    NestCommand,
    NestResponse,
    Nibe,
    Homiq,
}

// The kind of a number, if there is one of that number.
pub fn of(number: u8) -> Option<Kind>
    ensures { Resolves number result }
{
    match number {
        1 => Some(Kind::Nikobus),
        2 => Some(Kind::NestCommand),
        3 => Some(Kind::NestResponse),
        4 => Some(Kind::Nibe),
        5 => Some(Kind::Homiq),
        _ => None,
    }
}

// The number of a kind.
pub fn number(kind: Kind) -> u8
    ensures { result ≡ number_of kind }
{
    match kind {
        Kind::Nikobus => 1,
        Kind::NestCommand => 2,
        Kind::NestResponse => 3,
        Kind::Nibe => 4,
        Kind::Homiq => 5,
    }
}

// Whether a number is that of a kind.
pub fn known(number: u8) -> bool
    ensures { result ≡ paper.known number }
{
    of(number).is_some()
}

// What stands at a place of a buffer: the frame, or the test that it failed.
pub(crate) fn at(kind: Kind, buffer: &[u8], place: usize) -> Result<Frame, Failure>
    requires { place ≤ length buffer.now }
    ensures framed { frame_in result ≡ frame_at kind buffer.now place }
    ensures judged { Judged (layout_of kind) (drop place buffer.now) (failed_in result) }
{
    let s = &buffer[place..];
    match kind {
        Kind::Nikobus => nikobus::frame(s),
        Kind::NestCommand => nest::frame(Direction::Command, s),
        Kind::NestResponse => nest::frame(Direction::Response, s),
        Kind::Nibe => nibe::frame(s),
        Kind::Homiq => homiq::frame(s),
    }
}

// What stands at the head of these bytes, as `at` says it of the place 0. The match stands here again for the compiler: a recogniser that is called
// once would become a part of `at`, and `at` too large to become a part of each kind's search. Heads would cost the search up to a third more.
pub(crate) fn head(kind: Kind, bytes: &[u8]) -> Result<Frame, Failure>
    ensures { frame_in result ≡ frame_at kind bytes.now 0 }
{
    match kind {
        Kind::Nikobus => nikobus::frame(bytes),
        Kind::NestCommand => nest::frame(Direction::Command, bytes),
        Kind::NestResponse => nest::frame(Direction::Response, bytes),
        Kind::Nibe => nibe::frame(bytes),
        Kind::Homiq => homiq::frame(bytes),
    }
}

// Whether a frame can begin at a place of a buffer, by the first three bytes from there on. (A part of three bytes, whose length the
// compiler knows: the layouts' own test of the length costs nothing then.) Of Nikobus, no frame has a second character beyond `N`.
pub(crate) fn may_start(kind: Kind, buffer: &[u8], place: usize) -> bool
    requires { place + 3 ≤ length buffer.now }
    ensures { result ≡ may_start kind buffer.now place }
{
    let s = &buffer[place..place + 3];
    match kind {
        Kind::Nikobus => nikobus::may_start(s) & (s[1] <= b'N'),
        Kind::NestCommand => nest::may_start(Direction::Command, s),
        Kind::NestResponse => nest::may_start(Direction::Response, s),
        Kind::Nibe => nibe::may_start(s),
        Kind::Homiq => homiq::may_start(s),
    }
}

// Whether a place looks like a start: where it does not, no frame can begin. It is for many places at a time, so that Nest is tested by two bytes
// of its three, D5 AA: the third would cost half as much again, and noise has these two in one place of 65,536.
pub(crate) fn looks_like_start(kind: Kind, buffer: &[u8], place: usize) -> bool
    requires { place + 3 ≤ length buffer.now }
    ensures { result ≡ false → may_start kind buffer.now place ≡ false }
{
    match kind {
        Kind::Nikobus => may_start(kind, buffer, place),
        Kind::NestCommand => (buffer[place] == 0xD5) & (buffer[place + 1] == 0xAA),
        Kind::NestResponse => (buffer[place + 1] == 0xD5) & (buffer[place + 2] == 0xAA),
        Kind::Nibe => may_start(kind, buffer, place),
        Kind::Homiq => may_start(kind, buffer, place),
    }
}
