// Strings whose characters are one byte each: compared with a name, tested, and put into a room.
ghost use Rattle.std.specs.Prelude.{◌≡◌, drop, length};
ghost use Rattle.digits.specs.Paper.Bytes.{Bytes};
ghost use Rattle.digits.specs.Paper.Read.{Decides};
ghost use Rattle.puts.specs.Paper.Put.{Put};
ghost use Rattle.jsontext.specs.Work.Characters.{NarrowString};
ghost use Rattle.jsontext.specs.Work.Units.{name_in};

use crate::units::Units;

// Whether the string whose quotation mark stands at a place has the characters of a name.
pub(crate) fn is_name(s: &[u8], p: usize, name: &[u8]) -> bool
    ensures { Decides (name_in (drop p s.now) ≡ name.now) result }
{
    let mut units = Units::of(s, p);
    for b in name {
        let Some(u) = units.next() else {
            return false;
        };
        if u != u32::from(*b) {
            return false;
        }
    }
    units.next().is_none()
}

// Whether the text is a string whose characters are one byte each, and not over the limit.
pub(crate) fn is_narrow(text: &[u8]) -> bool
    ensures { Decides (NarrowString text.now) result }
{
    if crate::MOST_BYTES < text.len() {
        return false;
    }
    let Some(end) = crate::strings::string(text, 0) else {
        return false;
    };
    if end < text.len() {
        return false;
    }
    all_narrow(text)
}

// Whether all units of the string at the front of the text are below 256.
fn all_narrow(text: &[u8]) -> bool
    ensures { Decides (Bytes (name_in text.now)) result }
{
    Units::of(text, 0).all(|u| u <= 255)
}

// How many characters the string at the front of the text has.
pub(crate) fn count(text: &[u8]) -> usize
    ensures { result ≡ length (name_in text.now) }
{
    Units::of(text, 0).count()
}

// Puts the characters of a string into a room, as far as the room goes. Answers how many there are.
pub(crate) fn put(text: &[u8], room: &mut [u8]) -> usize
    requires { Bytes (name_in text.now) }
    ensures { Put room.old room.new 0 result (name_in text.now) }
{
    let mut n = 0;
    for u in Units::of(text, 0) {
        n = puts::byte((u % 256) as u8, room, n);
    }
    n
}
