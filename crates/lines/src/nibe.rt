// Nibe: a line from the message's name to its last member, by the sheet that a map is.
ghost use Rattle.messages.specs.Paper.Says.{of_nibe};
ghost use Rattle.puts.specs.Paper.Put.{Put};
ghost use Rattle.sheet.specs.Paper.Map.{lookup_in, sheet_in};
ghost use Rattle.lines.specs.Paper.WithSheet.{value_reading, valued as valued_members};
ghost use Rattle.lines.specs.Work.Put.{commaed, named_with};

use super::{members, values};
use digits::low_first;
use json_values::Decimals;
use messages::nibe::{Nibe, Valued};
use sheet::Typed;

// The content are a message's data.
pub(crate) fn name_and_members(
    message: Nibe,
    content: &[u8],
    map: &[u8],
    room: &mut [u8],
    at: usize,
) -> usize
    ensures { Put room.old room.new at result (named_with (sheet_in map.now) (of_nibe message content.now)) }
{
    match message {
        Nibe::Ask { register } => members::number(b"ask\",\"reg\":", register as u32, room, at),
        Nibe::Reply(valued) => {
            let a = puts::bytes(b"reply\"", room, at);
            value(valued, map, room, a)
        }
        Nibe::Put(valued) => {
            let a = puts::bytes(b"put\"", room, at);
            value(valued, map, room, a)
        }
        Nibe::Done { ok } => {
            let a = puts::bytes(b"done\",\"ok\":", room, at);
            json_values::truth(ok, room, a)
        }
        Nibe::Other { command } => {
            let a = members::number(b"nibe\",\"cmd\":", command as u32, room, at);
            let b = members::hex(b",\"data\":", content, room, a);
            values::member(command, content, map, room, b)
        }
    }
}

// A register, the width of its value, and the value.
fn value(valued: Valued, map: &[u8], room: &mut [u8], at: usize) -> usize
    ensures { Put room.old room.new at result (commaed (valued_members (sheet_in map.now) valued.register valued.width valued.value)) }
{
    let a = members::number(b",\"reg\":", valued.register as u32, room, at);
    let b = members::number(b",\"width\":", valued.width as u32, room, a);
    let c = puts::bytes(b",\"value\":", room, b);
    reading(valued, map, room, c)
}

// The value by the register's type, if it has one of the same width.
fn reading(valued: Valued, map: &[u8], room: &mut [u8], at: usize) -> usize
    ensures { Put room.old room.new at result (value_reading (lookup_in map.now valued.register) valued.width valued.value) }
{
    let Ok(
        Typed {
            width,
            signed,
            decimals,
        },
    ) = sheet::type_in(map, valued.register)
    else {
        return json_values::unsigned(valued.value, Decimals::Zero, room, at);
    };
    if width != valued.width as usize {
        return json_values::unsigned(valued.value, Decimals::Zero, room, at);
    }
    let four = low_first::four(valued.value);
    values::typed(&four[0..width], signed, decimals, room, at)
}
