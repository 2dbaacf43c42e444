// Homiq: a line from the message's name to its last member.
ghost use Rattle.std.specs.Prelude.{◌≡◌, [], ◌∷◌, ◌++◌, length};
ghost use Rattle.digits.specs.Paper.Ascii.{ascii};
ghost use Rattle.json_values.specs.Paper.Json as paper;
ghost use Rattle.json_values.specs.Paper.Json.{◌∶◌};
ghost use Rattle.messages.specs.Paper.Homiq.{up_to, past, field_at};
ghost use Rattle.puts.specs.Paper.Put.{Put};
ghost use Rattle.lines.specs.Work.Put.{commaed, homiq_name, field_members};

use super::members;
use messages::homiq;
use messages::homiq::Homiq;

// The content are CMD to TYPE. Their ID is a number's digits.
pub(crate) fn name_and_members(message: Homiq, content: &[u8], room: &mut [u8], at: usize) -> usize
    ensures { Put room.old room.new at result (homiq_name message ++ commaed (field_members content.now)) }
{
    let a = name(message, room, at);
    let cmd = homiq::field(content, 0);
    let b = members::chars(b",\"cmd\":", cmd, room, a);
    let from_val = behind(content, cmd.len());
    let val = homiq::field(from_val, 0);
    let c = members::chars(b",\"val\":", val, room, b);
    let from_src = behind(from_val, val.len());
    let src = homiq::field(from_src, 0);
    let d = members::chars(b",\"src\":", src, room, c);
    let from_dst = behind(from_src, src.len());
    let dst = homiq::field(from_dst, 0);
    let e = members::chars(b",\"dst\":", dst, room, d);
    id_and_type(behind(from_dst, dst.len()), room, e)
}

// The last two fields.
fn id_and_type(fields: &[u8], room: &mut [u8], at: usize) -> usize
    ensures { Put room.old room.new at result (commaed (ascii "id" ∶ field_at 0 fields.now ∷ ascii "type" ∶ paper.chars (field_at 1 fields.now) ∷ [])) }
{
    let id = homiq::field(fields, 0);
    let a = puts::bytes(b",\"id\":", room, at);
    let b = puts::bytes(id, room, a);
    let kind = homiq::field(behind(fields, id.len()), 0);
    // not by `members::chars`: with `json_values::chars` called from here too, the compiler does not inline it there, but inlines `members::chars`
    let c = puts::bytes(b",\"type\":", room, b);
    json_values::chars(kind, room, c)
}

// What stands behind the first field, which has n characters, and its `;`. So each field is looked for once.
fn behind(s: &[u8], n: usize) -> &[u8]
    requires { n ≡ length (up_to s.now) }
    ensures { result.now ≡ past s.now }
{
    if n < s.len() {
        return &s[n + 1..];
    }
    &s[n..]
}

fn name(message: Homiq, room: &mut [u8], at: usize) -> usize
    ensures { Put room.old room.new at result (homiq_name message) }
{
    match message {
        Homiq::Output => puts::bytes(b"output\"", room, at),
        Homiq::Input => puts::bytes(b"input\"", room, at),
        Homiq::Shutter => puts::bytes(b"shutter\"", room, at),
        Homiq::Beat => puts::bytes(b"beat\"", room, at),
        Homiq::Other => puts::bytes(b"homiq\"", room, at),
    }
}
