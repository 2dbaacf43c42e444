// Commands as JSON: a text becomes its message, and its message's frame.
#![tactic(auto)]

mod homiq;
pub mod lacks;
mod nest;
mod nibe;
mod nikobus;
mod readings;
mod rows;
mod sorts;
mod strings;
mod values;
mod wholes;

ghost use Rattle.std.specs.Prelude.{◌≡◌, ◌+◌, ◌≤◌, length};
ghost use Rattle.digits.specs.Paper.Read.{Decides};
ghost use Rattle.jsontext.specs.Paper.Members.{CountOf};
ghost use Rattle.asked.specs.Paper.Answers.{EncodesAsked, ReadsAsked};
ghost use Rattle.shapes.specs.Paper.Shapes.{shape_at};
ghost use Rattle.asked.specs.Work.Draft.{Drafts, DraftsText, refusal_of, Hands, HandsAllowed, Frames, Limited};

use crate::values::Reason;
use digits::refusal;
use digits::refusal::Refusal;
use jsontext::members;
use messages::Message;
use puts::Written;

// What a text asks for: the kind, the message, and how long what stands beside it is.
#[derive(Clone, Copy, Debug, PartialEq, Eq)]
pub struct Asked {
    pub kind: u8,
    pub message: Message,
    pub len: usize,
}

// What was read of a text: a message, with so many bytes beside it.
#[derive(Clone, Copy)]
pub struct Draft {
    pub message: Message,
    pub len: usize,
}

// A draft of the whole text, with its row.
#[derive(Clone, Copy)]
pub struct Drafted {
    pub row: u8,
    pub draft: Draft,
}

impl From<Reason> for Refusal {
    ghost from_gives = { λ r w. w ≡ refusal_of r };

    fn from(reason: Reason) -> Refusal {
        match reason {
            Reason::Large => Refusal::OutOfLimits,
            Reason::NoValue => Refusal::BadMembers,
        }
    }
}

// The message that a text means; what stands beside it is written from the front of the room. Refusals: 11 for a text that is not JSON or over
// a limit. 12 for members that are missing, extra or not as they are to be spelt. 5 for a field outside its limits. 6 for a content that a
// message above has. 4 for a room that is too short.
pub fn read(text: &[u8], room: &mut [u8]) -> Result<Asked, Refusal>
    ensures { ReadsAsked text.now room.old result room.new }
{
    let mut digits = [0u8; strings::MOST];
    let mut content = [0u8; strings::MOST];
    let meant = whole(text, &mut digits, &mut content)?;
    let draft = meant.draft;
    let len = draft.len;
    beside(meant.row, draft.message, &content[0..len], room)
}

// Writes the frame of the message that a text means from the front of the room. Refusals: those of `read`; 4 for a room too short for the frame.
pub fn encode(text: &[u8], room: &mut [u8]) -> Written
    ensures { EncodesAsked text.now room.old result room.new }
{
    let mut digits = [0u8; strings::MOST];
    let mut content = [0u8; strings::MOST];
    let drafted = whole(text, &mut digits, &mut content)?;
    let draft = drafted.draft;
    let len = draft.len;
    framed(drafted.row, draft.message, &content[0..len], room)
}

// What a text says: its row, and the draft of its message.
fn whole(
    text: &[u8],
    digits: &mut [u8; strings::MOST],
    content: &mut [u8; strings::MOST],
) -> Result<Drafted, Refusal>
    ensures { DraftsText text.now content.new result }
{
    if !jsontext::accepts(text) {
        return Err(Refusal::NotInGrammar);
    }
    let Some(row) = rows::row(text) else {
        return Err(Refusal::BadMembers);
    };
    if !has_so_many(text, rows::many(row) + 2) {
        return Err(Refusal::BadMembers);
    }
    Ok(Drafted {
        row: row,
        draft: by_row(row, text, digits, content)?,
    })
}

// Whether a text is an object with so many members.
fn has_so_many(text: &[u8], n: usize) -> bool
    ensures { Decides (CountOf text.now n) result }
{
    members::count(text) == Ok(n)
}

// The draft of a row's message, by its members.
fn by_row(
    row: u8,
    text: &[u8],
    digits: &mut [u8; strings::MOST],
    content: &mut [u8; strings::MOST],
) -> Result<Draft, Reason>
    requires { (1 ≤ row) × (row ≤ 23) }
    ensures { Drafts text.now row content.new result }
{
    if row <= 6 {
        return nikobus::by_row(row, text, digits, content);
    }
    if row == 7 {
        return nest::command(text, digits, content);
    }
    if row <= 13 {
        return nest::by_row(row, text, digits, content);
    }
    if row <= 18 {
        return nibe::by_row(row, text, digits, content);
    }
    homiq::by_row(row, text, content)
}

// The message of a draft, if it is one of the table; what stands beside it goes to the room.
fn beside(row: u8, message: Message, content: &[u8], room: &mut [u8]) -> Result<Asked, Refusal>
    requires { (1 ≤ row) × (row ≤ 23) }
    ensures { HandsAllowed (shape_at row).kind message content.now room.old result room.new }
{
    match messages::allowed(message, content) {
        Ok(()) => handed(row, message, content, room),
        Err(why) => Err(why),
    }
}

fn handed(row: u8, message: Message, content: &[u8], room: &mut [u8]) -> Result<Asked, Refusal>
    requires { (1 ≤ row) × (row ≤ 23) }
    ensures { Hands (shape_at row).kind message content.now room.old result room.new }
{
    let n = puts::front(content, room)?;
    Ok(Asked {
        kind: rows::kind(row),
        message: message,
        len: n,
    })
}

// The frame of a draft.
fn framed(row: u8, message: Message, content: &[u8], room: &mut [u8]) -> Written
    requires { (1 ≤ row) × (row ≤ 23) }
    ensures { Frames (shape_at row).kind message content.now room.old result room.new }
{
    commands::encode(rows::kind(row), message, content, room).map_err(limited)
}

// Why no frame is written: a width that is none is a field outside its limits here.
fn limited(why: Refusal) -> Refusal
    ensures { Limited why result }
{
    if refusal::number(why) == 7 {
        return Refusal::OutOfLimits;
    }
    why
}
