// Nibe: messages into frames.
ghost use Rattle.std.specs.Prelude.{◌≡◌};
ghost use Rattle.digits.specs.Paper.LowFirst.{Width};
ghost use Rattle.digits.specs.Paper.Read.{Decides};
ghost use Rattle.layouts.specs.Paper.Made.{nibe_of};
ghost use Rattle.layouts.specs.Paper.Nibe as paper;
ghost use Rattle.builds.specs.Paper.Builds.{Builds};
ghost use Rattle.messages.specs.Paper.Says.{of_nibe};
ghost use Rattle.messages.specs.Paper.Table.{valued};
ghost use Rattle.messages.specs.Work.Answers.{Only};
ghost use Rattle.commands.specs.Work.Answers.{WritesMessage, NibeWidth};

use builds::nibe;
use digits::low_first;
use digits::refusal::Refusal;
use messages::nibe::{Nibe, Valued};
use puts::Written;

// Whether the width of a message's value is 1, 2 or 4.
pub(crate) fn has_width(message: Nibe) -> bool
    ensures { Decides (NibeWidth message) result }
{
    match message {
        Nibe::Reply(v) | Nibe::Put(v) => is_width(v.width),
        _ => true,
    }
}

fn is_width(width: u8) -> bool
    ensures { Decides (Width width) result }
{
    matches!(width, 1 | 2 | 4)
}

// Writes the frame of a message with these data beside it.
pub(crate) fn write(message: Nibe, content: &[u8], room: &mut [u8]) -> Written
    ensures { WritesMessage (Only (of_nibe message content.now)) room.old result room.new }
{
    match message {
        Nibe::Ask { register } => nibe::frame(0x69, &low_first::two(register), room),
        Nibe::Reply(v) => write_valued(0x6A, v, room),
        Nibe::Put(v) => write_valued(0x6B, v, room),
        Nibe::Done { ok } => nibe::frame(0x6C, &[u8::from(ok)], room),
        Nibe::Other { command } => nibe::frame(command, content, room),
    }
}

// Writes the frame of a register and a value of 1, 2 or 4 bytes. (Nothing is built for a wider one.)
fn write_valued(command: u8, v: Valued, room: &mut [u8]) -> Written
    ensures { Width v.width → Builds paper.nibe (nibe_of command (valued v.register v.width v.value)) room.old result room.new }
{
    if 4 < v.width {
        return Err(Refusal::BadForm);
    }
    let content = valued_bytes(v.register, v.value);
    nibe::frame(command, &content[0..v.width as usize + 2], room)
}

// A register and a value as four bytes, of which a narrower value's are the first.
fn valued_bytes(register: u16, value: u32) -> [u8; 6]
    ensures { result ≡ valued register 4 value }
{
    let a = low_first::two(register);
    let v = low_first::four(value);
    [a[0], a[1], v[0], v[1], v[2], v[3]]
}
