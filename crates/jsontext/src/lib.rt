// The grammar of RFC 8259: which texts are JSON.
#![tactic(auto)]

mod characters;
pub mod faults;
pub mod members;
mod numerals;
mod strings;
mod units;

ghost use Rattle.std.specs.Prelude.{◌<◌, length, false};
ghost use Rattle.digits.specs.Paper.Read.{Decides};
ghost use Rattle.jsontext.specs.Paper.Abnf.{text};
ghost use Rattle.jsontext.specs.Paper.Faults.{FaultOf};
ghost use Rattle.jsontext.specs.Paper.Json.{blank, string};
ghost use Rattle.jsontext.specs.Paper.Names.{InGrammar};
ghost use Rattle.jsontext.specs.Work.Found.{Found, Skipped};
ghost use Rattle.jsontext.specs.Work.Names.{Later, TellsNew};
ghost use Rattle.jsontext.specs.Work.Tight.{tight, Rest, Member, Object, IsBlank};

use faults::Fault;

// The longest text that is read, and the deepest nesting.
const MOST_BYTES: usize = 8192;

const MOST_DEPTH: usize = 16;

// Whether a text is JSON by RFC 8259, with at most 8,192 bytes, values nested at most 16 deep, and no name twice in an object.
pub fn accepts(text: &[u8]) -> bool
    ensures { Decides (InGrammar text.now) result }
{
    if MOST_BYTES < text.len() {
        return false;
    }
    let start = blanks(text, 0);
    let Some(end) = value(text, start, MOST_DEPTH, true) else {
        return false;
    };
    text.len() <= blanks(text, end)
}

// What is wrong with a text; `None` exactly if `accepts` takes it.
pub fn fault(text: &[u8]) -> Option<Fault>
    ensures { FaultOf text.now result }
{
    if accepts(text) {
        return None;
    }
    if text.len() <= MOST_BYTES {
        return Some(faults::in_text(text));
    }
    Some(Fault::Long)
}

// The place behind the blanks that stand at a place.
fn blanks(s: &[u8], p: usize) -> usize
    ensures { Skipped blank s.now p result }
{
    for i in p..s.len() {
        if !is_blank(s[i]) {
            return i;
        }
    }
    s.len().max(p)
}

fn is_blank(b: u8) -> bool
    ensures { Decides (IsBlank b) result }
{
    if b == 0x20 {
        return true;
    }
    if b == 0x09 {
        return true;
    }
    if b == 0x0A {
        return true;
    }
    if b == 0x0D {
        return true;
    }
    false
}

// The end of a text that stands at a place.
fn literal(s: &[u8], p: usize, w: &[u8]) -> Option<usize>
    requires { 0 < length w.now }
    ensures { Found (text w.now) s.now p result }
{
    if s.len() <= p {
        return None;
    }
    if !s[p..].starts_with(w) {
        return None;
    }
    Some(p + w.len())
}

// The readers of values call each other, and each answers the end of what it reads, if that stands there. `names` says whether
// names are compared. To compare the names of an object, its members are passed over by the same readers, which then do not compare names
// again: else each level of nesting would multiply the work. (Their parameters are no struct: place and depth are others at each call.)

// The end of the value that stands at a place, nested at most so deep.
#[cycle(array_is_new_later_member_object_value)]
fn value(s: &[u8], p: usize, depth: usize, names: bool) -> Option<usize>
    ensures { Found (tight names depth) s.now p result }
{
    if depth == 0 {
        return None;
    }
    if s.len() <= p {
        return None;
    }
    let b = s[p];
    if b == b'"' {
        return quoted(s, p);
    }
    if b == b'{' {
        return object(s, p + 1, depth - 1, names);
    }
    if b == b'[' {
        return array(s, p + 1, depth - 1, names);
    }
    if b == b't' {
        return literal(s, p, b"true");
    }
    if b == b'f' {
        return literal(s, p, b"false");
    }
    if b == b'n' {
        return literal(s, p, b"null");
    }
    numerals::number(s, p)
}

// The end of the string that stands at a place. (For `value`, whose slice must not go to a function that stays a call: `value` would copy the
// slice first, out of memory that its caller has just written, and wait for that at each level of nesting.)
fn quoted(s: &[u8], p: usize) -> Option<usize>
    ensures { Found string s.now p result }
{
    strings::string(s, p)
}

// The end of an array whose opening bracket stands before a place.
#[cycle(array_is_new_later_member_object_value)]
fn array(s: &[u8], p: usize, depth: usize, names: bool) -> Option<usize>
    ensures { Found (Rest (tight names depth) 0x5D) s.now p result }
{
    let mut at = blanks(s, p);
    if s.len() <= at {
        return None;
    }
    if s[at] == b']' {
        return Some(at + 1);
    }
    loop {
        let e = value(s, at, depth, names)?;
        let f = blanks(s, e);
        if s.len() <= f {
            return None;
        }
        if s[f] == b']' {
            return Some(f + 1);
        }
        if s[f] != b',' {
            return None;
        }
        at = blanks(s, f + 1);
    }
}

// The end of an object whose opening bracket stands before a place. With `names`, each name is compared with those before it.
#[cycle(array_is_new_later_member_object_value)]
fn object(s: &[u8], p: usize, depth: usize, names: bool) -> Option<usize>
    ensures { Found (Object names (tight names depth)) s.now p result }
{
    let first = blanks(s, p);
    if s.len() <= first {
        return None;
    }
    if s[first] == b'}' {
        return Some(first + 1);
    }
    let mut at = first;
    loop {
        let Some(e) = member(s, at, depth, names) else {
            return None;
        };
        if !is_new(s, first, at, depth, names) {
            return None;
        }
        let f = blanks(s, e);
        if s.len() <= f {
            return None;
        }
        if s[f] == b'}' {
            return Some(f + 1);
        }
        if s[f] != b',' {
            return None;
        }
        at = blanks(s, f + 1);
    }
}

// The end of a member that stands at a place.
#[cycle(array_is_new_later_member_object_value)]
fn member(s: &[u8], p: usize, depth: usize, names: bool) -> Option<usize>
    ensures { Found (Member (tight names depth)) s.now p result }
{
    let Some(a) = strings::string(s, p) else {
        return None;
    };
    let b = blanks(s, a);
    if s.len() <= b {
        return None;
    }
    if s[b] != b':' {
        return None;
    }
    let c = blanks(s, b + 1);
    value(s, c, depth, names)
}

// Whether the member at a place has another name than each member before it, from the first on; true if names are not compared. If no
// members stand there, the answer says nothing.
#[cycle(array_is_new_later_member_object_value)]
fn is_new(s: &[u8], first: usize, at: usize, depth: usize, names: bool) -> bool
    ensures { TellsNew names (tight false depth) s.now first at result }
{
    if !names {
        return true;
    }
    let mut i = first;
    // (A `while`: a step is as long as the member that was read.)
    while i < at {
        if units::same_name(s, i, at) {
            return false;
        }
        let Some(next) = later(s, i, depth) else {
            return false;
        };
        i = next;
    }
    true
}

// The place of the member behind the one at a place, if that is not the last.
#[cycle(array_is_new_later_member_object_value)]
fn later(s: &[u8], p: usize, depth: usize) -> Option<usize>
    ensures { Later (tight false depth) s.now p result }
{
    let e = member(s, p, depth, false)?;
    let f = blanks(s, e);
    if s.len() <= f {
        return None;
    }
    if s[f] != b',' {
        return None;
    }
    Some(blanks(s, f + 1))
}
