// The shapes of commands: what the members of a row of document 01's table are called, and what their values are to be.
#![tactic(auto)]

mod names;
mod sorts;

ghost use Rattle.std.specs.Prelude.{◌≡◌};
ghost use Rattle.shapes.specs.Paper.Members.{names, sort_at, WritesName};
ghost use Rattle.shapes.specs.Paper.Shapes.{shape_at};

use digits::refusal::Refusal;
use puts::Written;

// What a member's value is to be: a whole number; so many bytes in hex; so many hex digits; bytes in hex; a string; true or false; a reading
// with so many decimals. `Nothing` of a member that no row has (and no Option: the promise of `sort_of` is Paper's `sort_at`, which names it).
#[derive(Clone, Copy, Debug, PartialEq, Eq)]
pub enum Sort {
    Nothing,
    Number,
    Bytes(u8),
    Digits(u8),
    Content,
    Text,
    Truth,
    Reading(u8),
}

// Writes the name of a member of a row, counted from 0, from the front of the room. Refusals: 5 for a member that no row has; 4 for a room that
// is too short.
pub fn name_of(row: u8, member: u8, room: &mut [u8]) -> Written
    ensures { WritesName (names (shape_at row).members) member room.old result room.new }
{
    if row <= 6 {
        return names::nikobus(row, member, room);
    }
    if row <= 13 {
        return names::nest(row, member, room);
    }
    if row <= 18 {
        return names::nibe(row, member, room);
    }
    if row <= 23 {
        return names::homiq(member, room);
    }
    Err(Refusal::OutOfLimits)
}

// What the value of a member of a row is to be.
pub fn sort_of(row: u8, member: u8) -> Sort
    ensures { result ≡ sort_at row member }
{
    if row <= 6 {
        return sorts::nikobus(row, member);
    }
    if row <= 13 {
        return sorts::nest(row, member);
    }
    if row <= 18 {
        return sorts::nibe(row, member);
    }
    if row <= 23 {
        return sorts::homiq(member);
    }
    Sort::Nothing
}
