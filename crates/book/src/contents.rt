// What the frame of an entry says beside its payload: an id, a command, or which of Nikobus's frames it is.
ghost use Rattle.std.specs.Prelude.{◌≡◌, ◌+◌, ◌≤◌, length};
ghost use Rattle.frames.specs.Paper.Kinds.{number_of, Frame};
ghost use Rattle.frames.specs.declared.kinds.Kind.TheVariants as kinds;
ghost use Rattle.messages.specs.Paper.Table.{u16_at};
ghost use Rattle.book.specs.Work.Contents.{Tagged};

use super::layout;
use frames::kinds::Kind;
use messages::Tag;

// Where the id stands in a command's frame, and in a response's.
const COMMAND_ID: usize = 3;

const RESPONSE_ID: usize = 4;

// The tag of what a frame says.
pub(crate) fn tag(kind: Kind, frame: &[u8]) -> Tag
    requires { Frame (number_of kind) frame.now }
    ensures { Tagged (number_of kind) frame.now result }
{
    match kind {
        Kind::Nikobus => of_nikobus(frame),
        Kind::NestCommand => Tag::Command {
            id: word(frame, COMMAND_ID),
        },
        Kind::NestResponse => Tag::Response {
            id: word(frame, RESPONSE_ID),
        },
        Kind::Nibe => Tag::Nibe { command: frame[1] },
        Kind::Homiq => Tag::Homiq,
    }
}

// A link begins with `$`, a press with `#N`, and a tail is the rest.
fn of_nikobus(frame: &[u8]) -> Tag
    requires { Frame (number_of kinds.Nikobus) frame.now }
    ensures { Tagged (number_of kinds.Nikobus) frame.now result }
{
    if frame[0] == b'$' {
        return Tag::Link;
    }
    if frame[1] == b'N' {
        return Tag::Press;
    }
    Tag::Tail
}

// The number of two bytes at a place, low byte first.
fn word(s: &[u8], at: usize) -> u16
    requires { at + 2 ≤ length s.now }
    ensures { result ≡ u16_at at s.now }
{
    layout::two(s, at) as u16
}
