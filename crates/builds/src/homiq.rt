// Homiq frames.
ghost use Rattle.puts.specs.Paper.Put.{Put};
ghost use Rattle.builds.specs.Paper.Builds.{BuildsHomiq};
ghost use Rattle.builds.specs.Work.Homiq.{around};

use digits::refusal::Refusal;
use layouts::homiq;
use puts::Written;

// The longest payload: fields of 8, 16, 4, 4, 3 and 1 characters and five separators.
const LONGEST: usize = 41;

// A frame with this payload, CMD to TYPE. (The payload is laid out as a frame and then tested: that is a frame only if the payload is
// one.)
pub fn frame(payload: &[u8], room: &mut [u8]) -> Written
    ensures { BuildsHomiq payload.now room.old result room.new }
{
    if LONGEST < payload.len() {
        return Err(Refusal::OutOfLimits);
    }
    let mut whole = [0u8; 64];
    let n = put_frame(payload, &mut whole);
    let Ok(found) = homiq::frame(&whole[0..n]) else {
        return Err(Refusal::OutOfLimits);
    };
    if found.len != n {
        return Err(Refusal::OutOfLimits);
    }
    puts::front(&whole[0..n], room)
}

// The payload between `<;` and its CRC, as far as the room goes.
fn put_frame(payload: &[u8], room: &mut [u8]) -> usize
    ensures { Put room.old room.new 0 result (around payload.now) }
{
    let mut at = puts::bytes(b"<;", room, 0);
    at = puts::bytes(payload, room, at);
    at = puts::byte(b';', room, at);
    at = puts::whole(homiq::crc(payload) as u64, room, at);
    puts::bytes(b";>\r\n", room, at)
}
