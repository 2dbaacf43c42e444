// Nest: a line from the message's name to its last member.
ghost use Rattle.std.specs.Prelude.{◌++◌};
ghost use Rattle.digits.specs.Paper.Ascii.{ascii};
ghost use Rattle.json_values.specs.Paper.Json as paper;
ghost use Rattle.messages.specs.Paper.Message.{command, climate, text, response};
ghost use Rattle.puts.specs.Paper.Put.{Put};
ghost use Rattle.lines.specs.Work.Put.{named, state_members, response_name_and_members};

use super::members;
use json_values::Decimals;
use messages::nest;
use messages::nest::Response;

pub(crate) fn name_and_members(
    message: Response,
    payload: &[u8],
    room: &mut [u8],
    at: usize,
) -> usize
    ensures { Put room.old room.new at result (response_name_and_members message payload.now) }
{
    match message {
        Response::Climate {
            temperature,
            humidity,
        } => climate(temperature, humidity, room, at),
        Response::State => state(payload, room, at),
        Response::Break => puts::bytes(b"break\"", room, at),
        Response::End => puts::bytes(b"end\"", room, at),
        Response::Text { id } => text(id, payload, room, at),
        Response::Other { id } => response(id, payload, room, at),
    }
}

pub(crate) fn command(id: u16, payload: &[u8], room: &mut [u8], at: usize) -> usize
    ensures { Put room.old room.new at result (named (command id payload.now)) }
{
    let a = members::number(b"command\",\"id\":", id as u32, room, at);
    members::hex(b",\"data\":", payload, room, a)
}

fn climate(temperature: i16, humidity: u16, room: &mut [u8], at: usize) -> usize
    ensures { Put room.old room.new at result (named (climate temperature humidity)) }
{
    let a = puts::bytes(b"climate\",\"temp\":", room, at);
    let b = json_values::signed(temperature as i32, Decimals::Two, room, a);
    members::reading(b",\"hum\":", humidity as u32, Decimals::One, room, b)
}

fn state(payload: &[u8], room: &mut [u8], at: usize) -> usize
    ensures { Put room.old room.new at result (ascii "state\"" ++ state_members payload.now) }
{
    let a = puts::bytes(b"state\"", room, at);
    let Ok(volts) = nest::voltages(payload) else {
        return a;
    };
    let b = members::reading(b",\"vin\":", volts.vin as u32, Decimals::Two, room, a);
    let c = members::reading(b",\"vop\":", volts.vop as u32, Decimals::Three, room, b);
    let d = members::reading(b",\"vbat\":", volts.vbat as u32, Decimals::Three, room, c);
    members::hex(b",\"data\":", payload, room, d)
}

fn text(id: u16, payload: &[u8], room: &mut [u8], at: usize) -> usize
    ensures { Put room.old room.new at result (named (text id payload.now)) }
{
    let a = members::number(b"text\",\"id\":", id as u32, room, at);
    members::chars(b",\"text\":", payload, room, a)
}

fn response(id: u16, payload: &[u8], room: &mut [u8], at: usize) -> usize
    ensures { Put room.old room.new at result (named (response id payload.now)) }
{
    let a = members::number(b"response\",\"id\":", id as u32, room, at);
    members::hex(b",\"data\":", payload, room, a)
}
