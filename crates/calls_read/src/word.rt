// A request's words as numbers and bytes.
use digits::hex;

// The words that are left of a line, a space between each two, if any are left.
#[derive(Clone, Copy)]
pub(crate) struct Words<'a>(Option<&'a [u8]>);

impl<'a> Words<'a> {
    pub(crate) fn of(line: &'a [u8]) -> Words<'a> {
        Words(Some(line))
    }

    pub(crate) fn next(&mut self) -> Option<&'a [u8]> {
        let mut parts = self.0?.splitn(2, |b| *b == b' ');
        let word = parts.next();
        self.0 = parts.next();
        word
    }
}

// A number without leading zeros and signs.
pub(crate) fn unsigned(word: &[u8], most: u64) -> Option<u64> {
    let text = str::from_utf8(word).ok()?;
    if text.starts_with('+') || text.len() > 1 && text.starts_with('0') {
        return None;
    }
    let n = text.parse().ok()?;
    if n <= most { Some(n) } else { None }
}

// From the least, which is as far below zero as is said, to one less above it. A number below zero is its other bits.
pub(crate) fn signed(word: &[u8], least: u64) -> Option<u64> {
    match word.strip_prefix(b"-") {
        Some(digits) => {
            let n = unsigned(digits, least)?;
            if n == 0 { None } else { Some(n.wrapping_neg()) }
        }
        None => unsigned(word, least.saturating_sub(1)),
    }
}

// The place of a word in a list of words, from 0.
pub(crate) fn place(word: &[u8], words: &[&str]) -> Option<u64> {
    let n = words.iter().position(|w| w.as_bytes() == word)?;
    Some(n as u64)
}

// Takes the bytes of a word to the front of the store; how many they are.
pub(crate) fn bytes(word: &[u8], store: &mut [u8]) -> Option<usize> {
    if word == b"-".as_slice() {
        return Some(0);
    }
    if word.is_empty() || word.len() % 2 != 0 {
        return None;
    }
    let n = word.len() / 2;
    let bytes = store.get_mut(..n)?;
    for (b, pair) in bytes.iter_mut().zip(word.chunks_exact(2)) {
        *b = hex::byte_of(pair[0], pair[1])?;
    }
    Some(n)
}
