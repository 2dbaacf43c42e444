// Nest frames.
ghost use Rattle.std.specs.Prelude.{◌≤◌, length};
ghost use Rattle.layouts.specs.Paper.Layout.{bytes_of};
ghost use Rattle.layouts.specs.Paper.Made.{nest_of};
ghost use Rattle.layouts.specs.Paper.Nest.{nest, nest_with};
ghost use Rattle.puts.specs.Paper.Put.{Put};
ghost use Rattle.builds.specs.Paper.Builds.{Builds};

use checks::nest::Crc;
use digits::low_first;
use digits::refusal::Refusal;
use layouts::nest::Direction;
use puts::Written;

// A frame of this direction, with this id and payload.
pub fn frame(direction: Direction, id: u16, payload: &[u8], room: &mut [u8]) -> Written
    ensures { Builds (nest direction) (nest_of id payload.now) room.old result room.new }
{
    match direction {
        Direction::Command => framed(b"\xD5\xAA\x96", id, payload, room),
        Direction::Response => framed(b"\xD5\xD5\xAA\x96", id, payload, room),
    }
}

// A frame with this preamble.
fn framed(preamble: &[u8], id: u16, payload: &[u8], room: &mut [u8]) -> Written
    requires { length preamble.now ≤ 4 }
    ensures { Builds (nest_with preamble.now) (nest_of id payload.now) room.old result room.new }
{
    if 1024 < payload.len() {
        return Err(Refusal::OutOfLimits);
    }
    let len = preamble.len() + 4 + payload.len() + 2;
    if room.len() < len {
        return Err(Refusal::NoRoom);
    }
    put_frame(preamble, id, payload, room);
    Ok(len)
}

// The bytes of a frame, as far as the room goes.
fn put_frame(preamble: &[u8], id: u16, payload: &[u8], room: &mut [u8]) -> usize
    requires { length payload.now ≤ 1024 }
    ensures { Put room.old room.new 0 result (bytes_of (nest_with preamble.now) (nest_of id payload.now)) }
{
    let id = low_first::two(id);
    let len = low_first::two(payload.len() as u16);
    let crc = low_first::two(Crc::new().bytes(&id).bytes(&len).bytes(payload).value);
    let mut at = puts::bytes(preamble, room, 0);
    at = puts::bytes(&id, room, at);
    at = puts::bytes(&len, room, at);
    at = puts::bytes(payload, room, at);
    puts::bytes(&crc, room, at)
}
