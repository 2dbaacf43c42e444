// The calls of `host_sheet` for a program in C, exported under the same names: each function here is one call of the function there, and has its
// contract.
#![tactic(auto)]

ghost use Rattle.std.specs.Prelude.{length};
ghost use Rattle.puts.specs.Paper.Right.{WroteRight};
ghost use Rattle.sheet.specs.Paper.Answers.{MapCause, IsMap};
ghost use Rattle.sheet.specs.Paper.Map.{sheet_in};
ghost use Rattle.lines.specs.Paper.Answers.{LineCause, LineOf};
ghost use Rattle.host_lines.specs.Paper.Answers.{WroteNext};
ghost use Rattle.host_sheet.specs.Paper.Answers.{ToldFault};

use host::answers::Count;
use host_lines::Listed;
use host_sheet::Fault;

// Reads a sheet into a map, one byte a register: `sheet::map`.
#[unsafe(no_mangle)]
pub extern "C" fn bolsterweft_sheet_map(text: &[u8], map: &mut [u8]) -> Count
    ensures { WroteRight (MapCause text.now (length map.old)) (IsMap text.now) map.old result.refusal result.length map.new }
{
    host_sheet::bolsterweft_sheet_map(text, map)
}

// What is wrong with a sheet: `sheet::fault`.
#[unsafe(no_mangle)]
pub extern "C" fn bolsterweft_sheet_fault(text: &[u8]) -> Fault
    ensures { ToldFault text.now result }
{
    host_sheet::bolsterweft_sheet_fault(text)
}

// Writes the line of one frame by a register map: `lines::write_mapped`.
#[unsafe(no_mangle)]
pub extern "C" fn bolsterweft_line_with(
    kind: u32,
    frame: &[u8],
    at: usize,
    map: &[u8],
    room: &mut [u8],
) -> Count
    ensures { WroteRight (LineCause (sheet_in map.now) kind frame.now at (length room.old)) (LineOf (sheet_in map.now) kind frame.now at) room.old result.refusal result.length room.new }
{
    host_sheet::bolsterweft_line_with(kind, frame, at, map, room)
}

// Writes the line of the next frame of a capture by a register map: `host_lines::next_mapped`.
#[unsafe(no_mangle)]
pub extern "C" fn bolsterweft_line_next_with(
    kind: u32,
    capture: &[u8],
    place: usize,
    map: &[u8],
    room: &mut [u8],
) -> Listed
    ensures { WroteNext (sheet_in map.now) kind capture.now place room.old result room.new }
{
    host_sheet::bolsterweft_line_next_with(kind, capture, place, map, room)
}
