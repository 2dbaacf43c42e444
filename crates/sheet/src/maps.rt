// Register maps: one byte a register.
ghost use Rattle.std.specs.Prelude.{◌≡◌, List, ◌++◌, ◌≤◌, length, get_or, drop};
ghost use Rattle.sheet.specs.Paper.Sheet.{Row};
ghost use Rattle.sheet.specs.Paper.Map.{in_byte};
ghost use Rattle.sheet.specs.Work.Lines.{RowsFrom};
ghost use Rattle.sheet.specs.Work.Maps.{width_said, signed_in, decimals_in, Known, zeros, Filled};

use super::reader;

// Sets a byte for each register to 0: the first 256 bytes, and then each as the one 256 before it. With zeros throughout, the compiler would
// fill the map by a call of C's `memset`.
pub(crate) fn clear(room: &mut [u8])
    requires { 65536 ≤ length room.old }
    ensures { room.new ≡ zeros 65536 ++ drop 65536 room.old }
{
    let mut i = 0;
    while i < 256 {
        room[i] = 0;
        i += 1;
    }
    while i < 65536 {
        room[i] = room[i - 256];
        i += 1;
    }
}

// Stores the byte of each row of a sheet.
pub(crate) fn fill(text: &[u8], map: &mut [u8])
    requires { (65536 ≤ length map.old) × ((rows : List Row) × RowsFrom 0 1 text.now rows) }
    ensures { Filled text.now map.old map.new }
{
    let mut left = text;
    let mut least: u32 = 0;
    let mut number: usize = 1;
    while let Ok(line) = reader::first(left, least, number) {
        let register = line.register as usize;
        map[register] = line.byte;
        left = &left[line.length..];
        least = line.register + 1;
        number += 1;
    }
}

// The byte of a register; 0 beyond the map's end.
pub(crate) fn byte_of(map: &[u8], register: u16) -> u8
    ensures { result ≡ get_or map.now register 0 }
{
    let at = register as usize;
    if at < map.len() {
        return map[at];
    }
    0
}

// The width of the type that a byte says, if it says one.
pub(crate) fn width(b: u8) -> Option<usize>
    ensures { result ≡ width_said (in_byte b) }
{
    match b {
        1..=8 => Some(1),
        9..=16 => Some(2),
        17..=24 => Some(4),
        _ => None,
    }
}

// Whether the type that a byte says has a sign.
pub(crate) fn signed(b: u8) -> bool
    requires { Known b }
    ensures { result ≡ signed_in (in_byte b) }
{
    (b - 1) / 4 % 2 == 1
}

// Its decimals.
pub(crate) fn decimals(b: u8) -> u32
    requires { Known b }
    ensures { result ≡ decimals_in (in_byte b) }
{
    ((b - 1) % 4) as u32
}
