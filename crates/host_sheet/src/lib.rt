// What a program in C calls for the installer's register sheet: its map, what is wrong with it, and lines by a map. The empty map is no
// sheet.
#![tactic(auto)]

ghost use Rattle.std.specs.Prelude.{◌≡◌, length};
ghost use Rattle.puts.specs.Paper.Right.{WroteRight};
ghost use Rattle.sheet.specs.Paper.Answers.{MapCause, IsMap, test_number};
ghost use Rattle.sheet.specs.Paper.Map.{sheet_in};
ghost use Rattle.lines.specs.Paper.Answers.{LineCause, LineOf};
ghost use Rattle.host_lines.specs.Paper.Answers.{WroteNext};
ghost use Rattle.host_sheet.specs.Paper.Answers.{ToldFault};

use host::answers;
use host::answers::Count;
use host_lines::Listed;
use sheet::faults::Test;

// The first line of a sheet that is wrong, counted from 1, and the number of the first test that it fails; zeros if none is wrong.
#[repr(C)]
#[derive(Clone, Copy, Debug, PartialEq, Eq)]
pub struct Fault {
    pub refusal: u32,
    pub test: u32,
    pub line: usize,
}

// The answer for a good sheet.
const NO_FAULT: Fault = Fault {
    refusal: 0,
    test: 0,
    line: 0,
};

// Reads a sheet into a map, one byte a register: `sheet::map`.
#[unsafe(no_mangle)]
pub extern "C" fn bolsterweft_sheet_map(text: &[u8], map: &mut [u8]) -> Count
    ensures { WroteRight (MapCause text.now (length map.old)) (IsMap text.now) map.old result.refusal result.length map.new }
{
    let written = sheet::map(text, map);
    answers::counted(written)
}

// What is wrong with a sheet: `sheet::fault`.
#[unsafe(no_mangle)]
pub extern "C" fn bolsterweft_sheet_fault(text: &[u8]) -> Fault
    ensures { ToldFault text.now result }
{
    match sheet::fault(text) {
        None => NO_FAULT,
        Some(fault) => Fault {
            refusal: 0,
            test: test_number(fault.test),
            line: fault.line,
        },
    }
}

// Writes the line of one frame by a register map: `lines::write_mapped`.
#[unsafe(no_mangle)]
pub extern "C" fn bolsterweft_line_with(
    kind: u32,
    frame: &[u8],
    at: usize,
    map: &[u8],
    room: &mut [u8],
) -> Count
    ensures { WroteRight (LineCause (sheet_in map.now) kind frame.now at (length room.old)) (LineOf (sheet_in map.now) kind frame.now at) room.old result.refusal result.length room.new }
{
    answers::counted(lines::write_mapped(answers::kind_byte(kind), frame, at, map, room))
}

// Writes the line of the next frame of a capture by a register map: `host_lines::next_mapped`.
#[unsafe(no_mangle)]
pub extern "C" fn bolsterweft_line_next_with(
    kind: u32,
    capture: &[u8],
    place: usize,
    map: &[u8],
    room: &mut [u8],
) -> Listed
    ensures { WroteNext (sheet_in map.now) kind capture.now place room.old result room.new }
{
    host_lines::next_mapped(kind, capture, place, map, room)
}

// The number of a test.
fn test_number(test: Test) -> u32
    ensures { result ≡ test_number test }
{
    match test {
        Test::Form => 1,
        Test::Register => 2,
        Test::TypeName => 3,
        Test::Decimals => 4,
        Test::NotRising => 5,
        Test::Over500 => 6,
        Test::NoLastLF => 7,
    }
}
