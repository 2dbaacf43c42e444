// The names of a row's members, counted from 0, written from the front of the room. Refusals: 5 for a number that is not below the count of
// members; 4 for a room that is too short.
ghost use Rattle.std.specs.Prelude.{◌≤◌, map};
ghost use Rattle.shapes.specs.Paper.Members.{names, WritesName};
ghost use Rattle.shapes.specs.Paper.Shapes.{shape_at, wired};

use digits::refusal::Refusal;
use puts::Written;

// The names of the members of a row of Nikobus, from 0 to 6.
pub(crate) fn nikobus(row: u8, member: u8, room: &mut [u8]) -> Written
    requires { row ≤ 6 }
    ensures { WritesName (names (shape_at row).members) member room.old result room.new }
{
    match row {
        0 => Err(Refusal::OutOfLimits),
        1 => nth(member, &[b"group", b"addr"], room),
        2 => nth(member, &[b"group", b"addr", b"out"], room),
        3 => nth(member, &[b"addr", b"third", b"out"], room),
        4 => nth(member, &[b"addr"], room),
        5 => Err(Refusal::OutOfLimits),
        _ => nth(member, &[b"data"], room),
    }
}

// The names of the members of a row of Nest, from 7 to 13.
pub(crate) fn nest(row: u8, member: u8, room: &mut [u8]) -> Written
    requires { (7 ≤ row) × (row ≤ 13) }
    ensures { WritesName (names (shape_at row).members) member room.old result room.new }
{
    match row {
        7 => nth(member, &[b"id", b"data"], room),
        8 => nth(member, &[b"temp", b"hum"], room),
        9 => nth(member, &[b"vin", b"vop", b"vbat", b"data"], room),
        10 => Err(Refusal::OutOfLimits),
        11 => Err(Refusal::OutOfLimits),
        12 => nth(member, &[b"id", b"text"], room),
        _ => nth(member, &[b"id", b"data"], room),
    }
}

// The names of the members of a row of Nibe, from 14 to 18.
pub(crate) fn nibe(row: u8, member: u8, room: &mut [u8]) -> Written
    requires { (14 ≤ row) × (row ≤ 18) }
    ensures { WritesName (names (shape_at row).members) member room.old result room.new }
{
    match row {
        14 => nth(member, &[b"reg"], room),
        15 => nth(member, &[b"reg", b"width", b"value"], room),
        16 => nth(member, &[b"reg", b"width", b"value"], room),
        17 => nth(member, &[b"ok"], room),
        _ => nth(member, &[b"cmd", b"data"], room),
    }
}

// The names of the members of each row of Homiq.
pub(crate) fn homiq(member: u8, room: &mut [u8]) -> Written
    ensures { WritesName (names wired) member room.old result room.new }
{
    nth(
        member,
        &[b"cmd", b"val", b"src", b"dst", b"id", b"type"],
        room,
    )
}

// The name with a number, of these.
fn nth(member: u8, names: &[&[u8]], room: &mut [u8]) -> Written
    ensures { WritesName (map (λ name. name.now) names.now) member room.old result room.new }
{
    match names.get(member as usize) {
        Some(name) => puts::front(name, room),
        None => Err(Refusal::OutOfLimits),
    }
}
