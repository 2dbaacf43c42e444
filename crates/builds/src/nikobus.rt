// Nikobus frames.
ghost use Rattle.std.specs.Prelude.{◌+◌, ◌*◌, ◌≤◌, length};
ghost use Rattle.layouts.specs.Paper.Layout.{bytes_of};
ghost use Rattle.layouts.specs.Paper.Made.{link_of};
ghost use Rattle.layouts.specs.Paper.Nikobus.{nikobus, press, tail};
ghost use Rattle.puts.specs.Paper.Put.{Put};
ghost use Rattle.builds.specs.Paper.Builds.{Builds};

use checks::nikobus::{Crc8, Crc16};
use digits::hex;
use digits::refusal::Refusal;
use layouts::nikobus;
use puts::Written;

// A link with these bytes as payload.
pub fn link(payload: &[u8], room: &mut [u8]) -> Written
    ensures { Builds nikobus (link_of payload.now) room.old result room.new }
{
    let n = payload.len();
    if n < 1 {
        return Err(Refusal::OutOfLimits);
    }
    if 122 < n {
        return Err(Refusal::OutOfLimits);
    }
    let len = n * 2 + 10;
    if room.len() < len {
        return Err(Refusal::NoRoom);
    }
    put_link(payload, room);
    Ok(len)
}

// The bytes of a link, if the room has a place for them all. (CRC8 covers the characters before it, as they stand in the room.)
fn put_link(payload: &[u8], room: &mut [u8]) -> usize
    requires { (length payload.now ≤ 122) × (length payload.now * 2 + 10 ≤ length room.old) }
    ensures { Put room.old room.new 0 result (bytes_of nikobus (link_of payload.now)) }
{
    let ll = hex::two_digits((payload.len() * 2 + 10) as u8);
    let crc16 = hex::four_digits(Crc16::of(payload));
    let mut at = puts::byte(b'$', room, 0);
    at = puts::bytes(&ll, room, at);
    at = puts::hex(payload, room, at);
    at = puts::bytes(&crc16, room, at);
    let crc8 = hex::two_digits(Crc8::of(&room[0..at]));
    at = puts::bytes(&crc8, room, at);
    puts::byte(b'\r', room, at)
}

// A press with these six digits.
pub fn press(digits: &[u8], room: &mut [u8]) -> Written
    ensures { Builds nikobus (press digits.now) room.old result room.new }
{
    if digits.len() != 6 {
        return Err(Refusal::OutOfLimits);
    }
    if !nikobus::all_digits(digits) {
        return Err(Refusal::OutOfLimits);
    }
    let whole = [
        b'#', b'N', digits[0], digits[1], digits[2], digits[3], digits[4], digits[5], b'\r',
    ];
    puts::front(&whole, room)
}

// A tail.
pub fn tail(room: &mut [u8]) -> Written
    ensures { Builds nikobus tail room.old result room.new }
{
    puts::front(b"#E1\r", room)
}
