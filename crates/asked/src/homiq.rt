// Homiq: output, input, shutter, beat, homiq, all with the six fields from CMD to TYPE.
ghost use Rattle.std.specs.Prelude.{[], ◌∷◌, ◌++◌, ◌≡◌, ◌≤◌};
ghost use Rattle.digits.specs.Paper.Decimal.{decimal};
ghost use Rattle.puts.specs.Paper.Put.{Put};
ghost use Rattle.shapes.specs.Paper.Fields.{plain, chars};
ghost use Rattle.shapes.specs.Paper.Shapes.{string};
ghost use Rattle.asked.specs.Work.Draft.{Drafts};
ghost use Rattle.asked.specs.Work.Got.{mapped, Reads, wire-type, typed_of};
ghost use Rattle.asked.specs.Work.Homiq.{Wires, row_of_homiq};

use crate::values::Reason;
use crate::{Draft, strings, values, wholes};
use messages::Message;
use messages::homiq::Homiq;

// The members of a row of Homiq, from 19 to 23. Beside the message stands CMD to TYPE.
pub(crate) fn by_row(
    row: u8,
    text: &[u8],
    content: &mut [u8; strings::MOST],
) -> Result<Draft, Reason>
    requires { (19 ≤ row) × (row ≤ 23) }
    ensures { Drafts text.now row content.new result }
{
    let homiq = message(row);
    let len = wire(text, content)?;
    Ok(Draft {
        message: Message::Homiq(homiq),
        len: len,
    })
}

// The message of a row.
fn message(row: u8) -> Homiq
    requires { (19 ≤ row) × (row ≤ 23) }
    ensures { row_of_homiq result ≡ row }
{
    match row {
        19 => Homiq::Output,
        20 => Homiq::Input,
        21 => Homiq::Shutter,
        22 => Homiq::Beat,
        _ => Homiq::Other,
    }
}

// The six fields, put into the content as CMD;VAL;SRC;DST;ID;TYPE.
fn wire(text: &[u8], content: &mut [u8; strings::MOST]) -> Result<usize, Reason>
    ensures { Wires text.now content.new result }
{
    let mut cmd = [0u8; 8];
    let a = strings::wire_field(values::value(text, b"cmd"), &mut cmd);
    let mut val = [0u8; 16];
    let b = strings::wire_field(values::value(text, b"val"), &mut val);
    let mut src = [0u8; 4];
    let c = strings::wire_field(values::value(text, b"src"), &mut src);
    let mut dst = [0u8; 4];
    let d = strings::wire_field(values::value(text, b"dst"), &mut dst);
    let id = wholes::whole(values::value(text, b"id"), 0, 511);
    let last = type_letter(values::value(text, b"type"));
    let end = values::both(d, values::both(id, last));
    let (a, (b, (c, (d, (id, letter))))) = values::both(a, values::both(b, values::both(c, end)))?;
    let at = put_field(&cmd[0..a], content, 0);
    let at = put_field(&val[0..b], content, at);
    let at = put_field(&src[0..c], content, at);
    let at = put_field(&dst[0..d], content, at);
    Ok(put_end(id as u64, letter, content, at))
}

// Puts a field at a place of the content, with a `;` behind it.
fn put_field(field: &[u8], content: &mut [u8], at: usize) -> usize
    ensures { Put content.old content.new at result (field.now ++ (59 ∷ [])) }
{
    let end = puts::bytes(field, content, at);
    puts::byte(b';', content, end)
}

// Puts ID;TYPE at a place of the content.
fn put_end(id: u64, letter: u8, content: &mut [u8], at: usize) -> usize
    ensures { Put content.old content.new at result (decimal id ++ (59 ∷ letter ∷ [])) }
{
    let a = puts::whole(id, content, at);
    let b = puts::byte(b';', content, a);
    puts::byte(letter, content, b)
}

// The type: `s` or `a`.
fn type_letter(v: &[u8]) -> Result<u8, Reason>
    ensures { Reads v.now string wire-type (mapped (λ l. plain (chars (l ∷ []))) result) }
{
    let mut one = [0u8; 1];
    let len = strings::chars(v, &mut one)?;
    typed(len, one[0])
}

// The type of so many characters, of which this is the first.
fn typed(len: usize, first: u8) -> Result<u8, Reason>
    ensures { result ≡ typed_of len first }
{
    if len == 0 {
        return Err(Reason::Large);
    }
    if first == b's' {
        return Ok(first);
    }
    if first == b'a' {
        return Ok(first);
    }
    Err(Reason::Large)
}
