// Which row of the table a text's kind and msg are, and how many members it has.
ghost use Rattle.std.specs.Prelude.{◌≡◌, ◌≤◌, length};
ghost use Rattle.frames.specs.Paper.Kinds.{number_of};
ghost use Rattle.shapes.specs.Paper.Shapes.{shape_at};
ghost use Rattle.asked.specs.Work.Rows.{RowOf, row_named};

use crate::{strings, values, wholes};
use digits::slices;
use frames::kinds;
use frames::kinds::Kind;

// The row, from 1 on, to which the kind and the msg of the object that the text is belong.
pub(crate) fn row(text: &[u8]) -> Option<u8>
    ensures { RowOf text.now result }
{
    let Ok(kind) = wholes::whole(values::value(text, b"kind"), 0, 255) else {
        return None;
    };
    let mut name = [0u8; 8];
    let Ok(n) = strings::chars(values::value(text, b"msg"), &mut name) else {
        return None;
    };
    named(kind as u8, &name[0..n])
}

// The row of a kind and a name.
fn named(kind: u8, name: &[u8]) -> Option<u8>
    ensures { result ≡ row_named kind name.now }
{
    of_kind(kinds::of(kind)?, name)
}

fn of_kind(kind: Kind, name: &[u8]) -> Option<u8>
    ensures { result ≡ row_named (number_of kind) name.now }
{
    match kind {
        Kind::Nikobus => nikobus(name),
        Kind::NestCommand => command(name),
        Kind::NestResponse => response(name),
        Kind::Nibe => nibe(name),
        Kind::Homiq => homiq(name),
    }
}

fn nikobus(name: &[u8]) -> Option<u8>
    ensures { result ≡ row_named 1 name.now }
{
    if slices::same(name, b"read") {
        return Some(1);
    }
    if slices::same(name, b"set") {
        return Some(2);
    }
    if slices::same(name, b"answer") {
        return Some(3);
    }
    if slices::same(name, b"press") {
        return Some(4);
    }
    if slices::same(name, b"tail") {
        return Some(5);
    }
    if slices::same(name, b"link") {
        return Some(6);
    }
    None
}

fn command(name: &[u8]) -> Option<u8>
    ensures { result ≡ row_named 2 name.now }
{
    if slices::same(name, b"command") {
        return Some(7);
    }
    None
}

fn response(name: &[u8]) -> Option<u8>
    ensures { result ≡ row_named 3 name.now }
{
    if slices::same(name, b"climate") {
        return Some(8);
    }
    if slices::same(name, b"state") {
        return Some(9);
    }
    if slices::same(name, b"break") {
        return Some(10);
    }
    if slices::same(name, b"end") {
        return Some(11);
    }
    if slices::same(name, b"text") {
        return Some(12);
    }
    if slices::same(name, b"response") {
        return Some(13);
    }
    None
}

fn nibe(name: &[u8]) -> Option<u8>
    ensures { result ≡ row_named 4 name.now }
{
    if slices::same(name, b"ask") {
        return Some(14);
    }
    if slices::same(name, b"reply") {
        return Some(15);
    }
    if slices::same(name, b"put") {
        return Some(16);
    }
    if slices::same(name, b"done") {
        return Some(17);
    }
    if slices::same(name, b"nibe") {
        return Some(18);
    }
    None
}

fn homiq(name: &[u8]) -> Option<u8>
    ensures { result ≡ row_named 5 name.now }
{
    if slices::same(name, b"output") {
        return Some(19);
    }
    if slices::same(name, b"input") {
        return Some(20);
    }
    if slices::same(name, b"shutter") {
        return Some(21);
    }
    if slices::same(name, b"beat") {
        return Some(22);
    }
    if slices::same(name, b"homiq") {
        return Some(23);
    }
    None
}

// The kind of a row.
pub(crate) fn kind(row: u8) -> u8
    requires { (1 ≤ row) × (row ≤ 23) }
    ensures { result ≡ (shape_at row).kind }
{
    if row <= 6 {
        return kinds::number(Kind::Nikobus);
    }
    if row == 7 {
        return kinds::number(Kind::NestCommand);
    }
    if row <= 13 {
        return kinds::number(Kind::NestResponse);
    }
    if row <= 18 {
        return kinds::number(Kind::Nibe);
    }
    kinds::number(Kind::Homiq)
}

// How many members a row has, beside kind and msg.
pub(crate) fn many(row: u8) -> usize
    requires { (1 ≤ row) × (row ≤ 23) }
    ensures { result ≡ length (shape_at row).members }
{
    match row {
        1 => 2,
        2 => 3,
        3 => 3,
        4 => 1,
        5 => 0,
        6 => 1,
        7 => 2,
        8 => 2,
        9 => 4,
        10 => 0,
        11 => 0,
        12 => 2,
        13 => 2,
        14 => 1,
        15 => 3,
        16 => 3,
        17 => 1,
        18 => 2,
        _ => 6,
    }
}
