// Refusals in words.
use digits::refusal;
use digits::refusal::Refusal;

// Puts the line that says why the command on a line is refused; how many bytes it has.
pub(crate) fn refused(line: u64, why: Refusal, room: &mut [u8]) -> usize {
    let a = puts::bytes(b"line ", room, 0);
    let b = puts::whole(line, room, a);
    let c = puts::bytes(b": refused ", room, b);
    let d = puts::whole(refusal::number(why) as u64, room, c);
    let e = puts::bytes(b": ", room, d);
    let f = puts::bytes(reason(why).as_bytes(), room, e);
    puts::byte(b'\n', room, f)
}

fn reason(why: Refusal) -> &'static str {
    match why {
        Refusal::OutOfLimits => "a value is outside its limits",
        Refusal::ContentAbove => "the content is that of a message above it in the table",
        Refusal::NotInGrammar => {
            "not a JSON text of at most 8,192 bytes, nested at most 16 deep and with no name twice in an object"
        }
        Refusal::BadMembers => {
            "members are missing, extra, of another sort or spelling, or disagree"
        }
        // never: the room holds every frame
        _ => "the room is too short for the frame",
    }
}
