// Nikobus: messages into frames.
ghost use Rattle.std.specs.Prelude.{◌≡◌, length};
ghost use Rattle.messages.specs.Paper.Message.{read, set, answer};
ghost use Rattle.messages.specs.Paper.Says.{six, SaysNikobus};
ghost use Rattle.messages.specs.Paper.Table.{code_of};
ghost use Rattle.messages.specs.declared.nikobus.Nikobus.TheVariants.{Link};
ghost use Rattle.messages.specs.Work.Answers.{Only};
ghost use Rattle.commands.specs.Work.Answers.{WritesMessage};
ghost use Rattle.commands.specs.Work.Nikobus.{Unhexed};

use builds::nikobus;
use digits::refusal::Refusal;
use digits::{hex, low_first};
use messages::nikobus::{Nikobus, Six};
use puts::Written;

// Writes the frame of a message with this beside it.
pub(crate) fn write(message: Nikobus, content: &[u8], room: &mut [u8]) -> Written
    ensures { WritesMessage (SaysNikobus message content.now) room.old result room.new }
{
    match message {
        Nikobus::Read { group, address } => write_read(group, address, room),
        Nikobus::Set {
            group,
            address,
            out,
        } => write_set(group, address, out, room),
        Nikobus::Answer {
            address,
            third,
            out,
        } => write_answer(address, third, out, room),
        Nikobus::Press(d) => nikobus::press(&[d.a, d.b, d.c, d.d, d.e, d.f], room),
        Nikobus::Tail => nikobus::tail(room),
        Nikobus::Link => write_link(content, room),
    }
}

fn write_read(group: u8, address: u16, room: &mut [u8]) -> Written
    ensures { WritesMessage (Only (read group address)) room.old result room.new }
{
    let a = low_first::two(address);
    nikobus::link(&[code_of(group, 0x12, 0x17), a[0], a[1]], room)
}

fn write_set(group: u8, address: u16, out: Six, room: &mut [u8]) -> Written
    ensures { WritesMessage (Only (set group address (six out))) room.old result room.new }
{
    let a = low_first::two(address);
    let payload = [
        code_of(group, 0x15, 0x16),
        a[0],
        a[1],
        out.a,
        out.b,
        out.c,
        out.d,
        out.e,
        out.f,
        0xFF,
    ];
    nikobus::link(&payload, room)
}

fn write_answer(address: u16, third: u8, out: Six, room: &mut [u8]) -> Written
    ensures { WritesMessage (Only (answer address third (six out))) room.old result room.new }
{
    let a = low_first::two(address);
    let payload = [a[0], a[1], third, out.a, out.b, out.c, out.d, out.e, out.f];
    nikobus::link(&payload, room)
}

// A link with these digits.
fn write_link(digits: &[u8], room: &mut [u8]) -> Written
    ensures { WritesMessage (SaysNikobus Link digits.now) room.old result room.new }
{
    let mut bytes = [0u8; 122];
    let Some(n) = values(digits, &mut bytes) else {
        return Err(Refusal::OutOfLimits);
    };
    nikobus::link(&bytes[0..n], room)
}

// Puts the bytes that digits are at the front of the room, and answers how many; `None` if the digits are not those of bytes, or of too
// many.
fn values(digits: &[u8], room: &mut [u8]) -> Option<usize>
    ensures { Unhexed digits.now (length room.old) result room.new }
{
    let n = digits.len() / 2;
    if digits.len() % 2 != 0 || room.len() < n {
        return None;
    }
    for i in 0..n {
        room[i] = hex::byte_of(digits[i * 2], digits[i * 2 + 1])?;
    }
    Some(n)
}

// The code of a group.
fn code_of(group: u8, first: u8, second: u8) -> u8
    ensures { result ≡ code_of first second group }
{
    if group == 1 { first } else { second }
}
