// Lists the frames of a capture: a kind's digit, LF and the capture on standard input, a line a frame and a last line on standard
// output. The register sheet is the file `sheet.txt` of the working folder; if there is none, the listing is document 01's. All that is
// said of the lines is proved of `list`; this hands it the input and the sheet, and writes what it answers.
#![tactic(auto)]

mod faulty;

ghost use Rattle.std.specs.Prelude.{◌≤◌, length};
ghost use Rattle.puts.specs.Paper.Wrote.{written_count};

use puts::Written;
use std::io::{ErrorKind, Read};
use std::rt::Files;
use std::{fs, io};

fn main(rt: HostRuntime) {
    let mut input = [0u8; 65537];
    let mut text = [0u8; 6001];
    let mut room = [0u8; 2097202];
    with_rooms(&rt, &mut input, &mut text, &mut room);
}

// A byte more than an input and a sheet may have, so that a longer one shows (`sheet-most` in crates/sheet/proofs/Theorems.antt); and a
// room in which no listing is refused (`always-enough` in crates/list/proofs/Theorems.antt). They are lent by their types, so that no
// proof has to count them.
fn with_rooms<R: Input + Files + Print + Eprint + Alloc>(
    rt: &R,
    input: &mut [u8; 65537],
    text: &mut [u8; 6001],
    room: &mut [u8; 2097202],
) {
    list_all(rt, input, text, room);
}

fn list_all<R: Input + Files + Print + Eprint + Alloc>(
    rt: &R,
    input: &mut [u8],
    text: &mut [u8],
    room: &mut [u8],
) {
    let n = read_full(&mut rt.reader(), input).count;
    match fs::open(rt, "sheet.txt") {
        Ok(file) => with_file(rt, file, &input[..n], text, room),
        Err(why) => without_file(rt, why, &input[..n], room),
    }
}

// What a reader gave until the room was full or it ended: how many bytes, and why it ended early, if a read failed.
#[derive(Drop)]
struct Got {
    count: usize,
    failed: Option<io::Error>,
}

fn read_full(source: &mut impl Read, s: &mut [u8]) -> Got
    ensures { result.count ≤ length s.new }
{
    let mut done = 0;
    // (A `while`: a step is as long as what was read.)
    while done < s.len() {
        match source.read(&mut s[done..]) {
            Ok(0) => break,
            Ok(n) => done += n,
            Err(why) => {
                return Got {
                    count: done,
                    failed: Some(why),
                };
            }
        }
    }
    Got {
        count: done,
        failed: None,
    }
}

fn with_file<R: Print + Eprint + Alloc>(
    rt: &R,
    mut file: impl Read + Drop,
    input: &[u8],
    text: &mut [u8],
    room: &mut [u8],
) {
    let got = read_full(&mut file, text);
    let k = got.count;
    if k == text.len() {
        complain(rt, "listing: sheet.txt: a sheet has at most 6,000 bytes\n");
        by_no_sheet(rt, input, room);
        return;
    }
    match got.failed {
        None => by_sheet(rt, input, &text[..k], room),
        Some(why) => {
            fail(rt, "listing: sheet.txt cannot be read", why);
            by_no_sheet(rt, input, room);
        }
    }
}

// Only a file that is not there means that there is no sheet.
fn without_file<R: Print + Eprint + Alloc>(rt: &R, why: io::Error, input: &[u8], room: &mut [u8]) {
    if why.kind() == ErrorKind::NotFound {
        let written = list::write(input, room);
        show(rt, written, room);
        return;
    }
    fail(rt, "listing: sheet.txt cannot be opened", why);
    by_no_sheet(rt, input, room);
}

// If the sheet is refused, and nothing before it, its fault is said.
fn by_sheet<R: Print + Eprint + Alloc>(rt: &R, input: &[u8], text: &[u8], room: &mut [u8]) {
    let written = list::write_with(input, text, room);
    if show(rt, written, room) {
        faulty::say(rt, text);
    }
}

// An empty line is no sheet, so the listing is refused as by a bad one.
fn by_no_sheet<R: Print + Eprint + Alloc>(rt: &R, input: &[u8], room: &mut [u8]) {
    let written = list::write_with(input, b"\n", room);
    show(rt, written, room);
}

// Prints what has been written at the front of the room, and answers whether that is the refusal of the sheet.
fn show<R: Print + Eprint + Alloc>(rt: &R, written: Written, room: &[u8]) -> bool
    requires { written_count written ≤ length room.now }
{
    match written {
        Ok(k) => printed(rt, &room[..k]),
        Err(_) => {
            complain(rt, "listing: the room is too short\n");
            false
        }
    }
}

fn printed<R: Print + Eprint + Alloc>(rt: &R, lines: &[u8]) -> bool {
    print(rt, lines);
    lines == b"{\"refused\":10}\n".as_slice()
}

fn print<R: Print + Eprint + Alloc>(rt: &R, lines: &[u8]) {
    if rt.write_all(lines).is_err() {
        complain(rt, "listing: the listing could not be written to its end\n");
    }
}

// The status tells nothing; what failed is said on standard error.
pub(crate) fn complain(rt: &impl Eprint, what: &str) {
    let _ = rt.eprint(what);
}

// Says what failed, and the system's words for it.
fn fail(rt: &(impl Eprint + Alloc), what: &str, why: io::Error) {
    let _ = told(rt, what, why);
}

fn told(rt: &(impl Eprint + Alloc), what: &str, why: io::Error) -> io::Result<()> {
    let said = format!(in rt.alloc(); "{why}")?;
    let words = without_number(said.as_str());
    eprint!(rt; "{what}: {words}\n")
}

// Behind the system's words std puts the error's number, in parentheses, which is not said.
fn without_number(said: &str) -> &str {
    match said.split_once(" (os error ") {
        Some((words, _)) => words,
        None => said,
    }
}
