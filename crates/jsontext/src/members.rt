// The members of an object, and the characters of a string, for a caller that reads them. A text is looked through again at each call, and
// names are not compared then: `accepts` has done that.
ghost use Rattle.jsontext.specs.Paper.Members.{Counts, FindsValue, WritesCharacters};
ghost use Rattle.jsontext.specs.Work.Members.{Opened, Starts, CountsFrom, FindsNamed, Places};

use digits::refusal::Refusal;
use puts::Written;

// Where the value of a member begins and ends.
#[derive(Clone, Copy, Debug, PartialEq, Eq)]
pub struct Value {
    pub from: usize,
    pub to: usize,
}

// The values inside an object are nested one level less deep than a text is.
const INNER_DEPTH: usize = 15;

// How many members the object has that the text is. Refusal: 12 for a text that is no object.
pub fn count(text: &[u8]) -> Result<usize, Refusal>
    ensures { Counts text.now result }
{
    let Some(inside) = opened(text) else {
        return Err(Refusal::BadMembers);
    };
    Ok(counted(text, inside))
}

// Where the value of the first member with a name begins and ends, in the object that the text is. Refusal: 12 for a text that is no object,
// and for one without that name.
pub fn value_of(text: &[u8], name: &[u8]) -> Result<Value, Refusal>
    ensures { FindsValue text.now name.now result }
{
    let Some(inside) = opened(text) else {
        return Err(Refusal::BadMembers);
    };
    let Some(at) = named(text, inside, name) else {
        return Err(Refusal::BadMembers);
    };
    value_at(text, at)
}

// Writes the characters of the string that the text is from the front of the room, one byte each. Refusals: 12 for a text that is no string,
// and for one with a character above U+00FF; 4 for a room that is too short.
pub fn characters(text: &[u8], room: &mut [u8]) -> Written
    ensures { WritesCharacters text.now room.old result room.new }
{
    if !crate::characters::is_narrow(text) {
        return Err(Refusal::BadMembers);
    }
    let size = crate::characters::count(text);
    if room.len() < size {
        return Err(Refusal::NoRoom);
    }
    crate::characters::put(text, room);
    Ok(size)
}

// The place behind the opening bracket of the object that the text is.
fn opened(text: &[u8]) -> Option<usize>
    ensures { Opened text.now result }
{
    if crate::MOST_BYTES < text.len() {
        return None;
    }
    let at = crate::blanks(text, 0);
    if text.len() <= at {
        return None;
    }
    if text[at] != b'{' {
        return None;
    }
    let end = crate::object(text, at + 1, INNER_DEPTH, false)?;
    if crate::blanks(text, end) < text.len() {
        return None;
    }
    Some(at + 1)
}

// The place of the first member behind an opening bracket.
fn first(text: &[u8], inside: usize) -> Option<usize>
    ensures { Starts text.now inside result }
{
    let at = crate::blanks(text, inside);
    if text.len() <= at {
        return None;
    }
    if text[at] == b'}' {
        return None;
    }
    Some(at)
}

// How many members stand behind an opening bracket.
fn counted(text: &[u8], inside: usize) -> usize
    ensures { CountsFrom text.now inside result }
{
    let mut at = first(text, inside);
    let mut n = 0;
    while let Some(i) = at {
        n += 1;
        at = crate::later(text, i, INNER_DEPTH);
    }
    n
}

// The place of the first member with a name, behind an opening bracket.
fn named(text: &[u8], inside: usize, name: &[u8]) -> Option<usize>
    ensures { FindsNamed name.now text.now inside result }
{
    let mut at = first(text, inside);
    while let Some(i) = at {
        if crate::characters::is_name(text, i, name) {
            return Some(i);
        }
        at = crate::later(text, i, INNER_DEPTH);
    }
    None
}

// Where the value of the member at a place begins and ends.
fn value_at(text: &[u8], at: usize) -> Result<Value, Refusal>
    ensures { Places text.now at result }
{
    let Some(name) = crate::strings::string(text, at) else {
        return Err(Refusal::BadMembers);
    };
    let colon = crate::blanks(text, name);
    if text.len() <= colon {
        return Err(Refusal::BadMembers);
    }
    let from = crate::blanks(text, colon + 1);
    let Some(to) = crate::value(text, from, INNER_DEPTH, false) else {
        return Err(Refusal::BadMembers);
    };
    Ok(Value { from: from, to: to })
}
