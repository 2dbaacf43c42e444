// Homiq: messages into frames, and the acknowledgement.
ghost use Rattle.std.specs.Prelude.{◌++◌};
ghost use Rattle.digits.specs.Paper.Ascii.{ascii};
ghost use Rattle.puts.specs.Paper.Put.{Put};
ghost use Rattle.messages.specs.Paper.Homiq.{field_at};
ghost use Rattle.messages.specs.Paper.Says.{SaysHomiq};
ghost use Rattle.commands.specs.Paper.Acknowledge.{Acknowledges};
ghost use Rattle.commands.specs.Work.Answers.{WritesMessage};
ghost use Rattle.commands.specs.Work.Homiq.{Laid, Answered, relaid, exchanged};

use builds::homiq;
use digits::refusal::Refusal;
use frames::kinds;
use frames::kinds::Kind;
use messages::homiq::{Homiq, field};
use puts::Written;

// Writes the frame of a message with CMD to TYPE beside it: whichever the message, these are its fields.
pub(crate) fn write(message: Homiq, content: &[u8], room: &mut [u8]) -> Written
    ensures { WritesMessage (SaysHomiq message content.now) room.old result room.new }
{
    homiq::frame(content, room)
}

// Writes the acknowledgement of a frame of type `s`.
pub(crate) fn acknowledge(frame: &[u8], room: &mut [u8]) -> Written
    ensures { Acknowledges frame.now room.old result room.new }
{
    let Ok(payload) = frames::one_frame(kinds::number(Kind::Homiq), frame) else {
        return Err(Refusal::OutOfLimits);
    };
    answer(&frame[payload.from..payload.to], room)
}

// Writes the acknowledgement of the frame with this payload, whose last character is its type. The acknowledgement's payload is as long.
// (The length is taken from there, and not from `exchange`: if the compiler knew that it is not 0, it would clear what the builder's own
// array has behind the payload by a call of C's `memset`, and the archive for C would need it.)
fn answer(payload: &[u8], room: &mut [u8]) -> Written
    requires { Laid payload.now }
    ensures { Answered payload.now room.old result room.new }
{
    if payload[payload.len() - 1] == b'a' {
        return Err(Refusal::OutOfLimits);
    }
    let mut reply = [0u8; 64];
    exchange(payload, &mut reply);
    homiq::frame(&reply[0..payload.len()], room)
}

// Puts a payload with SRC and DST exchanged and with `a` for its type.
fn exchange(payload: &[u8], room: &mut [u8]) -> usize
    ensures { Put room.old room.new 0 result (exchanged payload.now) }
{
    relay(payload, 3, 2, room)
}

// Puts CMD, VAL, two of the payload's fields for SRC and DST, ID, and `a`.
fn relay(payload: &[u8], src: usize, dst: usize, room: &mut [u8]) -> usize
    ensures { Put room.old room.new 0 result (relaid src dst payload.now) }
{
    let mut at = put_field(payload, 0, room, 0);
    at = put_field(payload, 1, room, at);
    at = put_field(payload, src, room, at);
    at = put_field(payload, dst, room, at);
    at = put_field(payload, 4, room, at);
    puts::byte(b'a', room, at)
}

// Puts a field of a payload and `;`.
fn put_field(payload: &[u8], number: usize, room: &mut [u8], at: usize) -> usize
    ensures { Put room.old room.new at result (field_at number payload.now ++ ascii ";") }
{
    let next = puts::bytes(field(payload, number), room, at);
    puts::byte(b';', room, next)
}
