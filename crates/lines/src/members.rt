// The members of a line: each behind its label, which is a `,`, the name in quotes and a `:`.
ghost use Rattle.std.specs.Prelude.{◌++◌, pos};
ghost use Rattle.puts.specs.Paper.Put.{Put};
ghost use Rattle.json_values.specs.Paper.Json as paper;
ghost use Rattle.json_values.specs.Paper.Decimals.{decimals_of};

use json_values::Decimals;

pub(crate) fn number(label: &[u8], n: u32, room: &mut [u8], at: usize) -> usize
    ensures { Put room.old room.new at result (label.now ++ paper.number n) }
{
    let next = puts::bytes(label, room, at);
    puts::whole(n as u64, room, next)
}

pub(crate) fn hex(label: &[u8], s: &[u8], room: &mut [u8], at: usize) -> usize
    ensures { Put room.old room.new at result (label.now ++ paper.hex s.now) }
{
    let next = puts::bytes(label, room, at);
    json_values::hex(s, room, next)
}

pub(crate) fn chars(label: &[u8], s: &[u8], room: &mut [u8], at: usize) -> usize
    ensures { Put room.old room.new at result (label.now ++ paper.chars s.now) }
{
    let next = puts::bytes(label, room, at);
    json_values::chars(s, room, next)
}

pub(crate) fn reading(
    label: &[u8],
    raw: u32,
    decimals: Decimals,
    room: &mut [u8],
    at: usize,
) -> usize
    ensures { Put room.old room.new at result (label.now ++ paper.reading (pos raw) (decimals_of decimals)) }
{
    let next = puts::bytes(label, room, at);
    json_values::unsigned(raw, decimals, room, next)
}
