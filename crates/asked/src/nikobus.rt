// Nikobus: read, set, answer, press, tail, link.
ghost use Rattle.std.specs.Prelude.{[], ◌∷◌, ◌≡◌, ◌+◌, ◌*◌, ◌≤◌, length, take};
ghost use Rattle.lines.specs.Paper.Line.{high_byte_first};
ghost use Rattle.messages.specs.Paper.Says.{six};
ghost use Rattle.shapes.specs.Paper.Fields.{plain, hex, chars};
ghost use Rattle.shapes.specs.Paper.Shapes.{bytes, digits};
ghost use Rattle.asked.specs.Work.Draft.{Drafts};
ghost use Rattle.asked.specs.Work.Got.{mapped, Reads, any};

use crate::values::Reason;
use crate::{Draft, strings, values, wholes};
use digits::hex;
use messages::Message;
use messages::nikobus::{Nikobus, Six};

// The members of a row of Nikobus, from 1 to 6.
pub(crate) fn by_row(
    row: u8,
    text: &[u8],
    digits: &mut [u8; strings::MOST],
    content: &mut [u8; strings::MOST],
) -> Result<Draft, Reason>
    requires { (1 ≤ row) × (row ≤ 6) }
    ensures { Drafts text.now row content.new result }
{
    match row {
        1 => read(text, digits),
        2 => set(text, digits),
        3 => answer(text, digits),
        4 => press(text),
        5 => Ok(tail()),
        _ => link(text, digits, content),
    }
}

fn read(text: &[u8], digits: &mut [u8; strings::MOST]) -> Result<Draft, Reason>
    ensures { Drafts text.now 1 [] result }
{
    let group = wholes::whole(values::value(text, b"group"), 0, 255);
    let addr = address(values::value(text, b"addr"), digits);
    let (group, addr) = values::both(group, addr)?;
    Ok(Draft {
        message: Message::Nikobus(Nikobus::Read {
            group: group as u8,
            address: addr,
        }),
        len: 0,
    })
}

fn set(text: &[u8], digits: &mut [u8; strings::MOST]) -> Result<Draft, Reason>
    ensures { Drafts text.now 2 [] result }
{
    let group = wholes::whole(values::value(text, b"group"), 0, 255);
    let addr = address(values::value(text, b"addr"), digits);
    let out = outputs(values::value(text, b"out"), digits);
    let (group, (addr, out)) = values::both(group, values::both(addr, out))?;
    Ok(Draft {
        message: Message::Nikobus(Nikobus::Set {
            group: group as u8,
            address: addr,
            out: out,
        }),
        len: 0,
    })
}

fn answer(text: &[u8], digits: &mut [u8; strings::MOST]) -> Result<Draft, Reason>
    ensures { Drafts text.now 3 [] result }
{
    let addr = address(values::value(text, b"addr"), digits);
    let third = wholes::whole(values::value(text, b"third"), 0, 255);
    let out = outputs(values::value(text, b"out"), digits);
    let (addr, (third, out)) = values::both(addr, values::both(third, out))?;
    Ok(Draft {
        message: Message::Nikobus(Nikobus::Answer {
            address: addr,
            third: third as u8,
            out: out,
        }),
        len: 0,
    })
}

fn press(text: &[u8]) -> Result<Draft, Reason>
    ensures { Drafts text.now 4 [] result }
{
    let addr = six_digits(values::value(text, b"addr"))?;
    Ok(Draft {
        message: Message::Nikobus(Nikobus::Press(addr)),
        len: 0,
    })
}

fn tail() -> Draft
    ensures { (result.message ≡ Message.Nikobus Nikobus.Tail) × (result.len ≡ 0) }
{
    Draft {
        message: Message::Nikobus(Nikobus::Tail),
        len: 0,
    }
}

// A link's digits stand beside it.
fn link(
    text: &[u8],
    digits: &mut [u8; strings::MOST],
    content: &mut [u8; strings::MOST],
) -> Result<Draft, Reason>
    ensures { Drafts text.now 6 content.new result }
{
    let mut payload = [0u8; 122];
    let n = strings::hex(values::value(text, b"data"), digits, &mut payload)?;
    Ok(Draft {
        message: Message::Nikobus(Nikobus::Link),
        len: puts::hex(&payload[0..n], content, 0),
    })
}

// A module's address: two bytes, the high one first.
fn address(v: &[u8], digits: &mut [u8; strings::MOST]) -> Result<u16, Reason>
    ensures { Reads v.now (bytes 2) any (mapped (λ a. plain (hex (high_byte_first a))) result) }
{
    let mut two = [0u8; 2];
    values::exact(strings::hex(v, digits, &mut two), 2)?;
    Ok(high_first(two[0], two[1]))
}

// A number of two bytes, the high one first.
fn high_first(high: u8, low: u8) -> u16
    ensures { result ≡ high * 256 + low }
{
    (high as u16) * 256 + (low as u16)
}

// Six values.
fn outputs(v: &[u8], digits: &mut [u8; strings::MOST]) -> Result<Six, Reason>
    ensures { Reads v.now (bytes 6) any (mapped (λ s. plain (hex (six s))) result) }
{
    let mut b = [0u8; 6];
    values::exact(strings::hex(v, digits, &mut b), 6)?;
    Ok(six_of(b))
}

// Six digits as they stand.
fn six_digits(v: &[u8]) -> Result<Six, Reason>
    ensures { Reads v.now (digits 6) any (mapped (λ s. plain (chars (six s))) result) }
{
    let mut b = [0u8; 6];
    let read = strings::chars(v, &mut b);
    if !strings::are_digits(&b) {
        return Err(Reason::NoValue);
    }
    values::exact(read, 6)?;
    Ok(six_of(b))
}

fn six_of(b: [u8; 6]) -> Six
    ensures { six result ≡ b }
{
    Six {
        a: b[0],
        b: b[1],
        c: b[2],
        d: b[3],
        e: b[4],
        f: b[5],
    }
}
