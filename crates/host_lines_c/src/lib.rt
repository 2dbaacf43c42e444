// The calls of `host_lines` for a program in C, exported under the same names: each function here is one call of the function there, and has its
// contract.
#![tactic(auto)]

ghost use Rattle.std.specs.Prelude.{length};
ghost use Rattle.std.proofs.Math.Option.{none};
ghost use Rattle.puts.specs.Paper.Right.{WroteRight};
ghost use Rattle.lines.specs.Paper.Answers.{LineCause, LineOf};
ghost use Rattle.commands.specs.Paper.Acknowledge.{AcknowledgeCause, AcknowledgementOf};
ghost use Rattle.host_lines.specs.Paper.Answers.{WroteNext};

use host::answers::Count;
use host_lines::Listed;

// Writes the line of one frame, which stands at a place of a capture, from the front of the room: `lines::write`.
#[unsafe(no_mangle)]
pub extern "C" fn bolsterweft_line(kind: u32, frame: &[u8], at: usize, room: &mut [u8]) -> Count
    ensures { WroteRight (LineCause none kind frame.now at (length room.old)) (LineOf none kind frame.now at) room.old result.refusal result.length room.new }
{
    host_lines::bolsterweft_line(kind, frame, at, room)
}

// Writes the line of the frame with the smallest start at or after the place, from the front of the room: `lines::next`.
#[unsafe(no_mangle)]
pub extern "C" fn bolsterweft_line_next(
    kind: u32,
    capture: &[u8],
    place: usize,
    room: &mut [u8],
) -> Listed
    ensures { WroteNext none kind capture.now place room.old result room.new }
{
    host_lines::bolsterweft_line_next(kind, capture, place, room)
}

// Writes the acknowledgement of a Homiq frame of type `s` from the front of the room: `commands::acknowledge`.
#[unsafe(no_mangle)]
pub extern "C" fn bolsterweft_acknowledge(frame: &[u8], room: &mut [u8]) -> Count
    ensures { WroteRight (AcknowledgeCause frame.now (length room.old)) (AcknowledgementOf frame.now) room.old result.refusal result.length room.new }
{
    host_lines::bolsterweft_acknowledge(frame, room)
}
