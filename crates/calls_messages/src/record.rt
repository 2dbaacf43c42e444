// Records: crates/calls_read/src/request.rt says what a record is. Each of the programs has these functions for itself, since whatever a
// library makes public must be claimed and answered too.
use std::io;
use std::io::{Read, Write};

// The words of a record.
pub(crate) type Words = [u64; 14];

// Reads a record into the two rooms; its words, unless there is none.
pub(crate) fn read(from: &mut impl Read, record: &mut [u8], room: &mut [u8]) -> io::Result<Words> {
    fill(from, record, 0, 256)?;
    let words = words(record);
    fill(from, record, 256, words[9] as usize)?;
    fill(from, room, 0, words[13] as usize)?;
    Ok(words)
}

// Writes a record with these words.
pub(crate) fn write(
    words: &Words,
    to: &mut impl Write,
    record: &mut [u8],
    room: &[u8],
) -> io::Result<()> {
    let (head, _) = record.as_chunks_mut::<8>();
    for (place, word) in head.iter_mut().zip(words) {
        *place = word.to_le_bytes();
    }
    to.write_all(part(record, 0, words[9]))?;
    to.write_all(part(room, 0, words[13]))
}

// The bytes between two places; none if there are no such places.
pub(crate) fn part(s: &[u8], from: u64, to: u64) -> &[u8] {
    s.get(from as usize..to as usize).unwrap_or_default()
}

// Reads the bytes between two places.
fn fill(from: &mut impl Read, s: &mut [u8], start: usize, end: usize) -> io::Result<()> {
    if end <= start {
        return Ok(());
    }
    match s.get_mut(start..end) {
        Some(bytes) => from.read_exact(bytes),
        None => Err(io::ErrorKind::InvalidData.into()),
    }
}

fn words(record: &[u8]) -> Words {
    let mut words = [0; 14];
    for (word, bytes) in words.iter_mut().zip(record.chunks_exact(8)) {
        if let Some(bytes) = bytes.first_chunk() {
            *word = u64::from_le_bytes(*bytes);
        }
    }
    words
}
