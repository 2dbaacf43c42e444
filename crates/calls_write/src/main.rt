// Writes the answers that stand in records, a line each. crates/calls_read/src/request.rt says what a record is, forms.rt what an answer is.
#![tactic(auto)]

mod float;
mod forms;

use std::io;
use std::io::{Read, Write};

fn main(rt: HostRuntime) {
    let mut record = [0u8; 131184];
    let mut room = [0u8; 2097202];
    let mut out = [0u8; 4194816];
    write_all(
        &mut rt.stdin(),
        &mut rt.stdout(),
        &mut record,
        &mut room,
        &mut out,
    );
}

// The words and the bytes of the longest record, its room, and the longest line. They are lent by their types, so that no proof has to
// count them.
fn write_all(
    from: &mut impl Read,
    to: &mut impl Write,
    record: &mut [u8; 131184],
    room: &mut [u8; 2097202],
    out: &mut [u8; 4194816],
) {
    for _ in 0..u64::MAX {
        if next(from, to, record, room, out).is_err() {
            return;
        }
    }
}

// Reads a record and writes its line. It fails if there is none.
fn next(
    from: &mut impl Read,
    to: &mut impl Write,
    record: &mut [u8],
    room: &mut [u8],
    out: &mut [u8],
) -> io::Result<()> {
    read(from, record, 0, 256)?;
    let words = words(record);
    read(from, record, 256, words[9] as usize)?;
    let lent = words[13] as usize;
    read(from, room, 0, lent)?;
    let n = forms::line(&words, room.get(..lent).unwrap_or_default(), out);
    to.write_all(out.get(..n).unwrap_or_default())
}

// Reads the bytes between two places.
fn read(from: &mut impl Read, s: &mut [u8], start: usize, end: usize) -> io::Result<()> {
    if end <= start {
        return Ok(());
    }
    match s.get_mut(start..end) {
        Some(bytes) => from.read_exact(bytes),
        None => Err(io::ErrorKind::InvalidData.into()),
    }
}

// The words of a record.
fn words(record: &[u8]) -> [u64; 14] {
    let mut words = [0; 14];
    for (word, bytes) in words.iter_mut().zip(record.chunks_exact(8)) {
        if let Some(bytes) = bytes.first_chunk() {
            *word = u64::from_le_bytes(*bytes);
        }
    }
    words
}
