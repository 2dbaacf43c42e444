// A word at the head of a slice, and one word behind another.
ghost use Rattle.std.specs.Prelude.{◌≡◌, ◌≤◌, ◌<◌, length, take};
ghost use Rattle.layouts.specs.Work.Heads.{Lasts, starts, word_len, onward};

// Whether s starts with the bytes of p.
pub(crate) fn starts_with(s: &[u8], p: &[u8]) -> bool
    ensures { result ≡ starts p.now s.now }
{
    s.starts_with(p)
}

// The end of the word p at a place.
pub(crate) fn word_at(s: &[u8], at: usize, p: &[u8]) -> Option<usize>
    requires some { 0 < length p.now }
    requires at_some { 0 < at }
    requires at_in_bounds { at ≤ length s.now }
    ensures { Lasts (onward (word_len p.now) s.now at) result }
{
    if starts_with(&s[at..], p) {
        return Some(at + p.len());
    }
    None
}

// The first k bytes of s, or all if there are no more.
pub(crate) fn first(s: &[u8], k: usize) -> &[u8]
    ensures { result.now ≡ take k s.now }
{
    if k < s.len() {
        return &s[0..k];
    }
    s
}
