// The sorts of a row's members, counted from 0.
ghost use Rattle.std.specs.Prelude.{◌≤◌};
ghost use Rattle.shapes.specs.Paper.Members.{sorts};
ghost use Rattle.shapes.specs.Paper.Shapes.{shape_at, wired};
ghost use Rattle.shapes.specs.Work.Picked.{SortIn};

use crate::Sort;

// The sorts of the members of a row of Nikobus, from 0 to 6.
pub(crate) fn nikobus(row: u8, member: u8) -> Sort
    requires { row ≤ 6 }
    ensures { SortIn (sorts (shape_at row).members) member result }
{
    match row {
        0 => Sort::Nothing,
        1 => nth(member, &[Sort::Number, Sort::Bytes(2)]),
        2 => nth(member, &[Sort::Number, Sort::Bytes(2), Sort::Bytes(6)]),
        3 => nth(member, &[Sort::Bytes(2), Sort::Number, Sort::Bytes(6)]),
        4 => nth(member, &[Sort::Digits(6)]),
        5 => Sort::Nothing,
        _ => nth(member, &[Sort::Content]),
    }
}

// The sorts of the members of a row of Nest, from 7 to 13.
pub(crate) fn nest(row: u8, member: u8) -> Sort
    requires { (7 ≤ row) × (row ≤ 13) }
    ensures { SortIn (sorts (shape_at row).members) member result }
{
    match row {
        7 => nth(member, &[Sort::Number, Sort::Content]),
        8 => nth(member, &[Sort::Reading(2), Sort::Reading(1)]),
        9 => nth(
            member,
            &[
                Sort::Reading(2),
                Sort::Reading(3),
                Sort::Reading(3),
                Sort::Content,
            ],
        ),
        10 => Sort::Nothing,
        11 => Sort::Nothing,
        12 => nth(member, &[Sort::Number, Sort::Text]),
        _ => nth(member, &[Sort::Number, Sort::Content]),
    }
}

// The sorts of the members of a row of Nibe, from 14 to 18.
pub(crate) fn nibe(row: u8, member: u8) -> Sort
    requires { (14 ≤ row) × (row ≤ 18) }
    ensures { SortIn (sorts (shape_at row).members) member result }
{
    match row {
        14 => nth(member, &[Sort::Number]),
        15 => nth(member, &[Sort::Number, Sort::Number, Sort::Reading(0)]),
        16 => nth(member, &[Sort::Number, Sort::Number, Sort::Reading(0)]),
        17 => nth(member, &[Sort::Truth]),
        _ => nth(member, &[Sort::Number, Sort::Content]),
    }
}

// The sorts of the members of each row of Homiq.
pub(crate) fn homiq(member: u8) -> Sort
    ensures { SortIn (sorts wired) member result }
{
    nth(
        member,
        &[
            Sort::Text,
            Sort::Text,
            Sort::Text,
            Sort::Text,
            Sort::Number,
            Sort::Text,
        ],
    )
}

// The sort with a number, of these; `Nothing` for a number that is not below their count.
fn nth(member: u8, sorts: &[Sort]) -> Sort
    ensures { SortIn sorts.now member result }
{
    match sorts.get(member as usize) {
        Some(sort) => *sort,
        None => Sort::Nothing,
    }
}
