// What a program in C calls for lines of JSON, of a frame and of the next frame of a capture, and for the acknowledgement of a frame.
#![tactic(auto)]

ghost use Rattle.std.specs.Prelude.{List, length};
ghost use Rattle.std.proofs.Math.Option.{none};
ghost use Rattle.digits.specs.Paper.Refusals.{Answers};
ghost use Rattle.puts.specs.Paper.Right.{WroteRight};
ghost use Rattle.lines.specs.Paper.Answers.{LineCause, LineOf, zero_placed, NextCause, NextLine};
ghost use Rattle.sheet.specs.Paper.Map.{sheet_in};
ghost use Rattle.commands.specs.Paper.Acknowledge.{AcknowledgeCause, AcknowledgementOf};
ghost use Rattle.host_lines.specs.Paper.Answers.{WroteNext};

use host::answers;
use host::answers::Count;

// A frame of a capture whose line was written, and how long that line is.
#[repr(C)]
#[derive(Clone, Copy, Debug, PartialEq, Eq)]
pub struct Listed {
    pub refusal: u32,
    pub start: usize,
    pub length: usize,
    pub line_length: usize,
}

// Writes the line of one frame, which stands at a place of a capture, from the front of the room: `lines::write`.
#[unsafe(no_mangle)]
pub extern "C" fn bolsterweft_line(kind: u32, frame: &[u8], at: usize, room: &mut [u8]) -> Count
    ensures { WroteRight (LineCause none kind frame.now at (length room.old)) (LineOf none kind frame.now at) room.old result.refusal result.length room.new }
{
    answers::counted(lines::write(answers::kind_byte(kind), frame, at, room))
}

// Writes the line of the frame with the smallest start at or after the place, from the front of the room: `lines::next`.
#[unsafe(no_mangle)]
pub extern "C" fn bolsterweft_line_next(
    kind: u32,
    capture: &[u8],
    place: usize,
    room: &mut [u8],
) -> Listed
    ensures { WroteNext none kind capture.now place room.old result room.new }
{
    next_mapped(kind, capture, place, &[], room)
}

// The same by a register map, for the call of another object of the archive: a function that one object calls twice is part of neither
// caller.
pub fn next_mapped(kind: u32, capture: &[u8], place: usize, map: &[u8], room: &mut [u8]) -> Listed
    ensures { WroteNext (sheet_in map.now) kind capture.now place room.old result room.new }
{
    match lines::next(answers::kind_byte(kind), capture, place, map, room, 0) {
        Ok(line) => Listed {
            refusal: 0,
            start: line.start,
            length: line.len,
            line_length: line.behind,
        },
        Err(why) => Listed {
            refusal: answers::refusal_number(why),
            start: 0,
            length: 0,
            line_length: 0,
        },
    }
}

// Writes the acknowledgement of a Homiq frame of type `s` from the front of the room: `commands::acknowledge`.
#[unsafe(no_mangle)]
pub extern "C" fn bolsterweft_acknowledge(frame: &[u8], room: &mut [u8]) -> Count
    ensures { WroteRight (AcknowledgeCause frame.now (length room.old)) (AcknowledgementOf frame.now) room.old result.refusal result.length room.new }
{
    let acknowledgement = commands::acknowledge(frame, room);
    answers::counted(acknowledgement)
}
