// What a text lacks that is refused with 11 or 12, for a caller that says it in words.
ghost use Rattle.std.specs.Prelude.{List, ◌≡◌, ◌≤◌, ◌<◌, length};
ghost use Rattle.digits.specs.Paper.Read.{Decides};
ghost use Rattle.jsontext.specs.Paper.Members.{FindsValue, IsObject};
ghost use Rattle.jsontext.specs.Paper.Names.{Member as Found};
ghost use Rattle.asked.specs.Paper.Lacks.{HasOf, HasKind, LackOf, LackIn};
ghost use Rattle.asked.specs.Paper.Means.{HeadOf};
ghost use Rattle.shapes.specs.Paper.Shapes.{shape_at};
ghost use Rattle.asked.specs.Work.Lacks.{member_at, Looked};

use crate::{rows, sorts, strings, values, wholes};
use digits::refusal::Refusal;
use frames::kinds;
use jsontext::members;
use jsontext::members::Value;

// The first thing that a text lacks. Where `there` is true, a member with the name stands there, and its value is not as it is to be.
#[derive(Clone, Copy, Debug, PartialEq, Eq)]
pub enum Lack {
    // It is not JSON, or over a limit.
    Text,
    // It is no object.
    Object,
    // It has no kind of the table.
    Kind { there: bool },
    // It has no msg of its kind.
    Msg { there: bool },
    // It does not have this member of its row, counted from 0, in its sort.
    Member { row: u8, member: u8, there: bool },
    // It has more members than its row.
    Extra,
    // A state's voltages are not those of its data.
    Volts,
}

// The first thing that a text lacks to be a command, in the order of the variants of `Lack`. One that lacks nothing means a message, if that is
// within its limits.
pub fn first(text: &[u8]) -> Option<Lack>
    ensures { LackOf text.now result }
{
    if !jsontext::accepts(text) {
        return Some(Lack::Text);
    }
    if !is_object(text) {
        return Some(Lack::Object);
    }
    if !has_kind(text) {
        return Some(Lack::Kind {
            there: members::value_of(text, b"kind").is_ok(),
        });
    }
    let Some(row) = rows::row(text) else {
        return Some(Lack::Msg {
            there: members::value_of(text, b"msg").is_ok(),
        });
    };
    of_row(text, row)
}

// Whether a text is an object.
fn is_object(text: &[u8]) -> bool
    ensures { Decides ((ms : List Found) × IsObject text.now ms) result }
{
    members::count(text).is_ok()
}

// Whether it has a kind of the table.
fn has_kind(text: &[u8]) -> bool
    ensures { Decides (HasKind text.now) result }
{
    let Ok(kind) = wholes::whole(values::value(text, b"kind"), 0, 255) else {
        return false;
    };
    kinds::known(kind as u8)
}

// What a text lacks that has the kind and the msg of a row.
fn of_row(text: &[u8], row: u8) -> Option<Lack>
    requires { HeadOf text.now row }
    ensures { LackIn text.now row result }
{
    let mut digits = [0u8; strings::MOST];
    if let Some(member) = first_member(text, row, &mut digits) {
        return Some(Lack::Member {
            row: row,
            member: member,
            there: found(text, row, member).is_ok(),
        });
    }
    if !crate::has_so_many(text, rows::many(row) + 2) {
        return Some(Lack::Extra);
    }
    let mut content = [0u8; strings::MOST];
    if !values::is_spelt(crate::by_row(row, text, &mut digits, &mut content)) {
        return Some(Lack::Volts);
    }
    None
}

// The first member of a row that a text does not have in its sort.
fn first_member(text: &[u8], row: u8, digits: &mut [u8; strings::MOST]) -> Option<u8>
    requires { (1 ≤ row) × (row ≤ 23) }
    ensures { Looked text.now (shape_at row).members result }
{
    let many = rows::many(row) as u8;
    for i in 0..many {
        if !has(text, row, i, digits) {
            return Some(i);
        }
    }
    None
}

// Whether a text has a member of a row in its sort.
fn has(text: &[u8], row: u8, member: u8, digits: &mut [u8; strings::MOST]) -> bool
    requires { (row ≤ 23) × (member < length (shape_at row).members) }
    ensures { Decides (HasOf text.now (member_at row member)) result }
{
    let Ok(value) = found(text, row, member) else {
        return false;
    };
    sorts::spells(
        &text[value.from..value.to],
        shapes::sort_of(row, member),
        digits,
    )
}

// Where the value of a member of a row stands in a text.
fn found(text: &[u8], row: u8, member: u8) -> Result<Value, Refusal>
    requires { (row ≤ 23) × (member < length (shape_at row).members) }
    ensures { FindsValue text.now (member_at row member).name result }
{
    let mut name = [0u8; 8];
    let n = shapes::name_of(row, member, &mut name)?;
    members::value_of(text, &name[0..n])
}
