// Commands back to bytes: messages encoded into frames, and frames acknowledged.
#![tactic(auto)]

mod homiq;
mod nest;
mod nibe;
mod nikobus;

ghost use Rattle.std.specs.Prelude.{◌≡◌};
ghost use Rattle.digits.specs.Paper.Read.{Decides};
ghost use Rattle.messages.specs.Paper.Says.{Says, kind_in};
ghost use Rattle.commands.specs.Paper.Answers.{Encodes};
ghost use Rattle.commands.specs.Paper.Acknowledge.{Acknowledges};
ghost use Rattle.commands.specs.Work.Answers.{WidthIn, WritesMeant, WritesMessage};

use digits::refusal::Refusal;
use frames::kinds;
use frames::kinds::Kind;
use messages::Message;
use puts::Written;

// Writes the frame of a message from the front of the room. Refusals: 2 for a kind that is not known. 7 for a width that is not 1, 2 or
// 4. 5 for a message of another kind or a field outside its limits. 6 for a content that a message above has. 4 for a room that is too
// short.
pub fn encode(kind: u8, message: Message, content: &[u8], room: &mut [u8]) -> Written
    ensures { Encodes kind message content.now room.old result room.new }
{
    if !kinds::known(kind) {
        return Err(Refusal::NoKind);
    }
    if !has_width(message) {
        return Err(Refusal::BadForm);
    }
    if kinds::number(kind_of(message)) != kind {
        return Err(Refusal::OutOfLimits);
    }
    write_allowed(message, content, room)
}

// Writes the frame of a message of the table. Refusals: 5, 6 and 4, as above.
fn write_allowed(message: Message, content: &[u8], room: &mut [u8]) -> Written
    ensures { WritesMeant (Says message content.now) room.old result room.new }
{
    match messages::allowed(message, content) {
        Ok(()) => write(message, content, room),
        Err(why) => Err(why),
    }
}

// Writes the frame of a message within its limits; of another nothing is promised, and nothing is tested here.
fn write(message: Message, content: &[u8], room: &mut [u8]) -> Written
    ensures { WritesMessage (Says message content.now) room.old result room.new }
{
    match message {
        Message::Nikobus(m) => nikobus::write(m, content, room),
        Message::Command { id } => nest::write_command(id, content, room),
        Message::Response(m) => nest::write(m, content, room),
        Message::Nibe(m) => nibe::write(m, content, room),
        Message::Homiq(m) => homiq::write(m, content, room),
    }
}

// Writes the acknowledgement of a Homiq frame of type `s` from the front of the room: SRC and DST exchanged, `a`, and the CRC of
// that. Refusals: 5 for a frame of type `a` and for anything else than one frame, 4 for a room too short.
pub fn acknowledge(frame: &[u8], room: &mut [u8]) -> Written
    ensures { Acknowledges frame.now room.old result room.new }
{
    homiq::acknowledge(frame, room)
}

// Whether the width of a message's value is 1, 2 or 4; a message without a value has none to test.
fn has_width(message: Message) -> bool
    ensures { Decides (WidthIn message) result }
{
    match message {
        Message::Nibe(m) => nibe::has_width(m),
        _ => true,
    }
}

// The kind whose message it is.
fn kind_of(message: Message) -> Kind
    ensures { result ≡ kind_in message }
{
    match message {
        Message::Nikobus(_) => Kind::Nikobus,
        Message::Command { .. } => Kind::NestCommand,
        Message::Response(_) => Kind::NestResponse,
        Message::Nibe(_) => Kind::Nibe,
        Message::Homiq(_) => Kind::Homiq,
    }
}
