// The calls of `host_asked` for a program in C, exported under the same names: each function here is one call of the function there, and has its
// contract.
#![tactic(auto)]

ghost use Rattle.std.specs.Prelude.{length};
ghost use Rattle.puts.specs.Paper.Right.{WroteRight};
ghost use Rattle.commands.specs.Paper.Answers.{MessageCause, MeantBytes};
ghost use Rattle.asked.specs.Paper.Answers.{AskedCause};
ghost use Rattle.asked.specs.Paper.Means.{Means};

use host::answers::Count;

// Writes the frame of the message that a text means from the front of the room: `asked::encode`.
#[unsafe(no_mangle)]
pub extern "C" fn bolsterweft_encode(text: &[u8], room: &mut [u8]) -> Count
    ensures { WroteRight (AskedCause text.now (MessageCause (Means text.now) (length room.old))) (MeantBytes (Means text.now)) room.old result.refusal result.length room.new }
{
    host_asked::bolsterweft_encode(text, room)
}
