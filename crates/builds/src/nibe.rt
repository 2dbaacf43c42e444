// Nibe frames.
ghost use Rattle.std.specs.Prelude.{◌≤◌, length};
ghost use Rattle.layouts.specs.Paper.Layout.{bytes_of};
ghost use Rattle.layouts.specs.Paper.Made.{nibe_of};
ghost use Rattle.layouts.specs.Paper.Nibe.{nibe};
ghost use Rattle.puts.specs.Paper.Put.{Put};
ghost use Rattle.builds.specs.Paper.Builds.{Builds};

use checks::nibe::Xor;
use digits::refusal::Refusal;
use layouts::nibe;
use puts::Written;

// A frame with this command and these data.
pub fn frame(command: u8, content: &[u8], room: &mut [u8]) -> Written
    ensures { Builds nibe (nibe_of command content.now) room.old result room.new }
{
    if !nibe::is_command(command) {
        return Err(Refusal::OutOfLimits);
    }
    if 255 < content.len() {
        return Err(Refusal::OutOfLimits);
    }
    let len = content.len() + 4;
    if room.len() < len {
        return Err(Refusal::NoRoom);
    }
    put_frame(command, content, room);
    Ok(len)
}

// The bytes of a frame, as far as the room goes.
fn put_frame(command: u8, content: &[u8], room: &mut [u8]) -> usize
    requires { length content.now ≤ 255 }
    ensures { Put room.old room.new 0 result (bytes_of nibe (nibe_of command content.now)) }
{
    let head = [0xC0, command, content.len() as u8];
    let xor = Xor::new().byte(content.len() as u8).bytes(content).value;
    let mut at = puts::bytes(&head, room, 0);
    at = puts::bytes(content, room, at);
    puts::byte(xor, room, at)
}
