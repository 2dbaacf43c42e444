// Nest: command, and the responses climate, state, break, end, text, response.
ghost use Rattle.std.specs.Prelude.{[], ◌≡◌, ◌+◌, ◌*◌, ◌≤◌, pos};
ghost use Rattle.digits.specs.Paper.Read.{Decides};
ghost use Rattle.asked.specs.Work.Draft.{Drafts};
ghost use Rattle.asked.specs.Work.Got.{Volts};

use crate::values::Reason;
use crate::{Draft, readings, strings, values, wholes};
use messages::Message;
use messages::nest::Response;

// The members of a response's row, from 8 to 13.
pub(crate) fn by_row(
    row: u8,
    text: &[u8],
    digits: &mut [u8; strings::MOST],
    content: &mut [u8; strings::MOST],
) -> Result<Draft, Reason>
    requires { (8 ≤ row) × (row ≤ 13) }
    ensures { Drafts text.now row content.new result }
{
    match row {
        8 => climate(text, digits),
        9 => state(text, digits, content),
        10 => Ok(empty(Response::Break)),
        11 => Ok(empty(Response::End)),
        12 => chars(text, content),
        _ => other(text, digits, content),
    }
}

pub(crate) fn command(
    text: &[u8],
    digits: &mut [u8; strings::MOST],
    content: &mut [u8; strings::MOST],
) -> Result<Draft, Reason>
    ensures { Drafts text.now 7 content.new result }
{
    let id = wholes::whole(values::value(text, b"id"), 0, 65535);
    let read = strings::hex(values::value(text, b"data"), digits, content);
    let (id, len) = values::both(id, read)?;
    Ok(Draft {
        message: Message::Command { id: id as u16 },
        len: len,
    })
}

fn climate(text: &[u8], digits: &mut [u8; strings::MOST]) -> Result<Draft, Reason>
    ensures { Drafts text.now 8 [] result }
{
    let temp = readings::reading(values::value(text, b"temp"), 2, -32768, 32767, digits);
    let hum = readings::reading(values::value(text, b"hum"), 1, 0, 65535, digits);
    let (temp, hum) = values::both(temp, hum)?;
    Ok(Draft {
        message: Message::Response(Response::Climate {
            temperature: temp as i16,
            humidity: hum as u16,
        }),
        len: 0,
    })
}

// A state's voltages must be those of its data: a voltage that no data have disagrees, and is not outside its limits.
fn state(
    text: &[u8],
    digits: &mut [u8; strings::MOST],
    content: &mut [u8; strings::MOST],
) -> Result<Draft, Reason>
    ensures { Drafts text.now 9 content.new result }
{
    let vin = readings::reading(values::value(text, b"vin"), 2, 0, 65535, digits);
    let vop = readings::reading(values::value(text, b"vop"), 3, 0, 65535, digits);
    let vbat = readings::reading(values::value(text, b"vbat"), 3, 0, 65535, digits);
    let read = strings::hex(values::value(text, b"data"), digits, content);
    let volts = values::both(vin, values::both(vop, vbat));
    let (vin, (vop, vbat)) = values::firm(volts)?;
    let len = read?;
    let all = &content[..];
    if !agree(&all[0..len], vin, vop, vbat) {
        return Err(Reason::NoValue);
    }
    Ok(Draft {
        message: Message::Response(Response::State),
        len: len,
    })
}

// Whether the voltages in a state's data are these.
fn agree(payload: &[u8], input: i64, operating: i64, battery: i64) -> bool
    ensures { Decides (Volts payload.now input operating battery) result }
{
    if payload.len() < 14 {
        return false;
    }
    if word(payload[8], payload[9]) != input {
        return false;
    }
    if word(payload[10], payload[11]) != operating {
        return false;
    }
    if word(payload[12], payload[13]) != battery {
        return false;
    }
    true
}

// A number of two bytes, the low one first.
fn word(low: u8, high: u8) -> i64
    ensures { result ≡ pos (low + 256 * high) }
{
    ((low as u64) + 256 * (high as u64)) as i64
}

// A response without members.
fn empty(message: Response) -> Draft
    ensures { (result.message ≡ Message.Response message) × (result.len ≡ 0) }
{
    Draft {
        message: Message::Response(message),
        len: 0,
    }
}

fn chars(text: &[u8], content: &mut [u8; strings::MOST]) -> Result<Draft, Reason>
    ensures { Drafts text.now 12 content.new result }
{
    let id = wholes::whole(values::value(text, b"id"), 0, 65535);
    let read = strings::chars(values::value(text, b"text"), content);
    let (id, len) = values::both(id, read)?;
    Ok(Draft {
        message: Message::Response(Response::Text { id: id as u16 }),
        len: len,
    })
}

fn other(
    text: &[u8],
    digits: &mut [u8; strings::MOST],
    content: &mut [u8; strings::MOST],
) -> Result<Draft, Reason>
    ensures { Drafts text.now 13 content.new result }
{
    let id = wholes::whole(values::value(text, b"id"), 0, 65535);
    let read = strings::hex(values::value(text, b"data"), digits, content);
    let (id, len) = values::both(id, read)?;
    Ok(Draft {
        message: Message::Response(Response::Other { id: id as u16 }),
        len: len,
    })
}
