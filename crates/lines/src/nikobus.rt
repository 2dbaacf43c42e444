// Nikobus: a line from the message's name to its last member.
ghost use Rattle.std.specs.Prelude.{[], ◌∷◌, ◌++◌};
ghost use Rattle.digits.specs.Paper.Ascii.{ascii};
ghost use Rattle.json_values.specs.Paper.Json as paper;
ghost use Rattle.messages.specs.Paper.Message.{read, set, answer, press};
ghost use Rattle.messages.specs.Paper.Says.{six};
ghost use Rattle.puts.specs.Paper.Put.{Put};
ghost use Rattle.lines.specs.Paper.Line.{high_byte_first};
ghost use Rattle.lines.specs.Work.Put.{named, nikobus_name_and_members};

use super::members;
use digits::hex;
use messages::nikobus::{Nikobus, Six};

// The digits are those of a link's payload.
pub(crate) fn name_and_members(message: Nikobus, digits: &[u8], room: &mut [u8], at: usize) -> usize
    ensures { Put room.old room.new at result (nikobus_name_and_members message digits.now) }
{
    match message {
        Nikobus::Read { group, address } => read(group, address, room, at),
        Nikobus::Set {
            group,
            address,
            out,
        } => set(group, address, out, room, at),
        Nikobus::Answer {
            address,
            third,
            out,
        } => answer(address, third, out, room, at),
        Nikobus::Press(digits) => press(digits, room, at),
        Nikobus::Tail => puts::bytes(b"tail\"", room, at),
        Nikobus::Link => link(digits, room, at),
    }
}

fn read(group: u8, address: u16, room: &mut [u8], at: usize) -> usize
    ensures { Put room.old room.new at result (named (read group address)) }
{
    let a = members::number(b"read\",\"group\":", group as u32, room, at);
    shown_address(address, room, a)
}

fn set(group: u8, address: u16, out: Six, room: &mut [u8], at: usize) -> usize
    ensures { Put room.old room.new at result (named (set group address (six out))) }
{
    let a = members::number(b"set\",\"group\":", group as u32, room, at);
    let b = shown_address(address, room, a);
    values(out, room, b)
}

fn answer(address: u16, third: u8, out: Six, room: &mut [u8], at: usize) -> usize
    ensures { Put room.old room.new at result (named (answer address third (six out))) }
{
    let a = puts::bytes(b"answer\"", room, at);
    let b = shown_address(address, room, a);
    let c = members::number(b",\"third\":", third as u32, room, b);
    values(out, room, c)
}

fn press(digits: Six, room: &mut [u8], at: usize) -> usize
    ensures { Put room.old room.new at result (named (press (six digits))) }
{
    let chars = [digits.a, digits.b, digits.c, digits.d, digits.e, digits.f];
    members::chars(b"press\",\"addr\":", &chars, room, at)
}

fn link(digits: &[u8], room: &mut [u8], at: usize) -> usize
    ensures { Put room.old room.new at result (ascii "link\",\"data\":" ++ paper.quoted digits.now) }
{
    let a = puts::bytes(b"link\",\"data\":\"", room, at);
    let b = puts::bytes(digits, room, a);
    puts::byte(b'"', room, b)
}

// The address of a module, high byte first.
fn shown_address(address: u16, room: &mut [u8], at: usize) -> usize
    ensures { Put room.old room.new at result (ascii ",\"addr\":" ++ paper.hex (high_byte_first address)) }
{
    let digits = hex::four_digits(address);
    let a = puts::bytes(b",\"addr\":\"", room, at);
    let b = puts::bytes(&digits, room, a);
    puts::byte(b'"', room, b)
}

// The values of a module's six outputs.
fn values(out: Six, room: &mut [u8], at: usize) -> usize
    ensures { Put room.old room.new at result (ascii ",\"out\":" ++ paper.hex (six out)) }
{
    let bytes = [out.a, out.b, out.c, out.d, out.e, out.f];
    members::hex(b",\"out\":", &bytes, room, at)
}
