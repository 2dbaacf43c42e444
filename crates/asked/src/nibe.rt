// Nibe: ask, reply, put, done, nibe.
ghost use Rattle.std.specs.Prelude.{[], ◌≡◌, ◌≤◌};
ghost use Rattle.asked.specs.Work.Draft.{Drafts};
ghost use Rattle.asked.specs.Work.Got.{mapped, ReadsAll, valued_slots, valued_fields};

use crate::values::Reason;
use crate::{Draft, readings, strings, values, wholes};
use messages::Message;
use messages::nibe::{Nibe, Valued};

// The members of a row of Nibe, from 14 to 18.
pub(crate) fn by_row(
    row: u8,
    text: &[u8],
    digits: &mut [u8; strings::MOST],
    content: &mut [u8; strings::MOST],
) -> Result<Draft, Reason>
    requires { (14 ≤ row) × (row ≤ 18) }
    ensures { Drafts text.now row content.new result }
{
    match row {
        14 => ask(text),
        15 => reply(text, digits),
        16 => put(text, digits),
        17 => done(text),
        _ => other(text, digits, content),
    }
}

fn ask(text: &[u8]) -> Result<Draft, Reason>
    ensures { Drafts text.now 14 [] result }
{
    let reg = wholes::whole(values::value(text, b"reg"), 0, 65535)?;
    Ok(Draft {
        message: Message::Nibe(Nibe::Ask {
            register: reg as u16,
        }),
        len: 0,
    })
}

fn reply(text: &[u8], digits: &mut [u8; strings::MOST]) -> Result<Draft, Reason>
    ensures { Drafts text.now 15 [] result }
{
    let v = valued(text, digits)?;
    Ok(Draft {
        message: Message::Nibe(Nibe::Reply(v)),
        len: 0,
    })
}

fn put(text: &[u8], digits: &mut [u8; strings::MOST]) -> Result<Draft, Reason>
    ensures { Drafts text.now 16 [] result }
{
    let v = valued(text, digits)?;
    Ok(Draft {
        message: Message::Nibe(Nibe::Put(v)),
        len: 0,
    })
}

// A register with a value.
fn valued(text: &[u8], digits: &mut [u8; strings::MOST]) -> Result<Valued, Reason>
    ensures { ReadsAll text.now valued_slots (mapped valued_fields result) }
{
    let reg = wholes::whole(values::value(text, b"reg"), 0, 65535);
    let width = wholes::whole(values::value(text, b"width"), 0, 255);
    let value = readings::reading(values::value(text, b"value"), 0, 0, 4294967295, digits);
    let (reg, (width, value)) = values::both(reg, values::both(width, value))?;
    Ok(Valued {
        register: reg as u16,
        width: width as u8,
        value: value as u32,
    })
}

fn done(text: &[u8]) -> Result<Draft, Reason>
    ensures { Drafts text.now 17 [] result }
{
    let ok = values::truth(values::value(text, b"ok"))?;
    Ok(Draft {
        message: Message::Nibe(Nibe::Done { ok: ok }),
        len: 0,
    })
}

fn other(
    text: &[u8],
    digits: &mut [u8; strings::MOST],
    content: &mut [u8; strings::MOST],
) -> Result<Draft, Reason>
    ensures { Drafts text.now 18 content.new result }
{
    let cmd = wholes::whole(values::value(text, b"cmd"), 0, 255);
    let read = strings::hex(values::value(text, b"data"), digits, content);
    let (cmd, len) = values::both(cmd, read)?;
    Ok(Draft {
        message: Message::Nibe(Nibe::Other { command: cmd as u8 }),
        len: len,
    })
}
