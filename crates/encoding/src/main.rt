// Writes the frames of commands as JSON. Standard input has a digit, 0 for frames as bytes or 1 for frames as hex digits with LF behind each;
// LF; and a command on each line, of which the last needs no LF. Standard output has the frames. Standard error has a line for each command
// that is refused, with its number, counted from 1; and a last line, `end`, if every frame could be written. All that is said of a frame is
// proved of `asked::encode`.
#![tactic(auto)]

mod words;

ghost use Rattle.std.specs.Prelude.{◌≤◌, length, IfOk, IfSome};

use digits::refusal::Refusal;
use std::io;
use std::io::{Read, Write};

fn main(rt: HostRuntime) {
    let mut input = [0u8; 65536];
    let mut frame = [0u8; 1034];
    let mut out = [0u8; 2069];
    with_rooms(
        &mut rt.stdin(),
        &mut rt.stdout(),
        &mut rt.stderr(),
        &mut input,
        &mut frame,
        &mut out,
    );
}

// Many lines, the longest frame, and its hex digits and LF. A line that the input does not hold is over the limit of a text by far. They are
// lent by their types, so that no proof has to count them.
fn with_rooms(
    source: &mut impl Read,
    to: &mut impl Write,
    told: &mut impl Write,
    input: &mut [u8; 65536],
    frame: &mut [u8; 1034],
    out: &mut [u8; 2069],
) {
    let mut frames = Frames {
        digits: wants_digits(source),
        lines: 0,
        to,
        told: &mut *told,
        frame,
        out,
    };
    if encode_all(source, &mut frames, input).is_ok() {
        let _ = told.write_all(b"end\n");
    }
}

// Takes the digit and its LF. A read that fails is the end of the input.
fn wants_digits(source: &mut impl Read) -> bool {
    let mut head = [0u8; 2];
    let _ = source.read_exact(&mut head);
    head[0] == b'1'
}

// How far the reading is. The front of the input has the first bytes of a line that is not complete: how many, and whether the line began
// before them and is too long.
#[derive(Clone, Copy, Debug, PartialEq, Eq)]
struct Reading {
    have: usize,
    over: bool,
}

// Encodes each command. It ends where a frame cannot be written.
fn encode_all(
    source: &mut impl Read,
    frames: &mut Frames<'_, impl Write, impl Write>,
    input: &mut [u8],
) -> io::Result<()> {
    let mut reading = Reading {
        have: 0,
        over: false,
    };
    for _ in 0..u64::MAX {
        let Some(end) = read_behind(reading.have, source, input) else {
            return last(reading, frames, input);
        };
        reading = complete(end, reading.over, frames, input)?;
    }
    Ok(())
}

// How many bytes there are with those that are read now, if any are. A read that fails is the end of the input.
fn read_behind(have: usize, source: &mut impl Read, input: &mut [u8]) -> Option<usize>
    requires { have ≤ length input.old }
    ensures { IfSome result (λ end. end ≤ length input.new) }
{
    match source.read(&mut input[have..]) {
        Ok(0) | Err(_) => None,
        Ok(n) => Some(have + n),
    }
}

// The last line needs no LF. If it has one, nothing is left behind it.
fn last(
    reading: Reading,
    frames: &mut Frames<'_, impl Write, impl Write>,
    input: &[u8],
) -> io::Result<()>
    requires { reading.have ≤ length input.now }
{
    if reading.over {
        frames.too_long();
        return Ok(());
    }
    if reading.have == 0 {
        return Ok(());
    }
    frames.line(&input[..reading.have])
}

// Encodes the complete lines, and moves what is left to the front. If that fills the input, it is of a line that is too long.
fn complete(
    end: usize,
    over: bool,
    frames: &mut Frames<'_, impl Write, impl Write>,
    input: &mut [u8],
) -> io::Result<Reading>
    requires { end ≤ length input.old }
    ensures { IfOk result (λ reading. reading.have ≤ length input.new) }
{
    let Some(last) = input[..end].iter().rposition(|b| *b == b'\n') else {
        let full = end == input.len();
        return Ok(Reading {
            have: if full { 0 } else { end },
            over: over || full,
        });
    };
    each(over, frames, &input[..last])?;
    input.copy_within(last + 1..end, 0);
    Ok(Reading {
        have: end - (last + 1),
        over: false,
    })
}

// Encodes lines, of which the first may be too long.
fn each(
    over: bool,
    frames: &mut Frames<'_, impl Write, impl Write>,
    text: &[u8],
) -> io::Result<()> {
    let mut lines = text.split(|b| *b == b'\n');
    if over {
        lines.next();
        frames.too_long();
    }
    for line in lines {
        frames.line(line)?;
    }
    Ok(())
}

// Where frames are written to, and how; where the refusals are told; the rooms for a frame and for a line; and how many commands there were.
#[derive(Drop)]
struct Frames<'a, W, T> {
    digits: bool,
    lines: u64,
    to: &'a mut W,
    told: &'a mut T,
    frame: &'a mut [u8],
    out: &'a mut [u8],
}

impl<W: Write, T: Write> Frames<'_, W, T> {
    // Writes the frame of a command, or tells why there is none. It fails if there is one and it cannot be written.
    fn line(&mut self, text: &[u8]) -> io::Result<()> {
        self.lines = self.lines.wrapping_add(1);
        let frame = &mut *self.frame;
        match asked::encode(text, frame) {
            Ok(n) => self.show(n),
            Err(why) => {
                self.refuse(why);
                Ok(())
            }
        }
    }

    // Tells that a line is too long.
    fn too_long(&mut self) {
        self.lines = self.lines.wrapping_add(1);
        self.refuse(Refusal::NotInGrammar);
    }

    // Writes the frame, which has so many bytes.
    fn show(&mut self, len: usize) -> io::Result<()> {
        let digits = self.digits;
        let frame = &mut *self.frame;
        let to = &mut *self.to;
        let out = &mut *self.out;
        write(digits, frame.get(..len).unwrap_or_default(), to, out)
    }

    // The status tells nothing: that a line was refused shows on standard error alone.
    fn refuse(&mut self, why: Refusal) {
        let out = &mut *self.out;
        let end = words::refused(self.lines, why, out);
        let told = &mut *self.told;
        let _ = told.write_all(out.get(..end).unwrap_or_default());
    }
}

fn write(digits: bool, frame: &[u8], to: &mut impl Write, out: &mut [u8]) -> io::Result<()> {
    if !digits {
        return to.write_all(frame);
    }
    let n = puts::hex(frame, out, 0);
    let end = puts::byte(b'\n', out, n);
    to.write_all(out.get(..end).unwrap_or_default())
}
