// Where a text that is not accepted goes wrong, and what must stand there. Whatever is good is passed over by the readers of the grammar; at the
// first that is not, the search goes on inside it, one level deeper each time.
ghost use Rattle.std.specs.Prelude.{◌≤◌, length, Some};
ghost use Rattle.jsontext.specs.Paper.Faults.{FaultOf, InMember, array_stops, object_stops, value_stops};
ghost use Rattle.digits.specs.Paper.Read.{Decides};
ghost use Rattle.jsontext.specs.Paper.Names.{InGrammar, most_bytes};
ghost use Rattle.jsontext.specs.Work.Faults.{StopsFrom, Stands};

// What must stand at a place: a value; a value that is nested less deep; a name; a name that its object does not have yet; a colon; a comma or
// the closing bracket; nothing more.
#[derive(Clone, Copy, Debug, PartialEq, Eq)]
pub enum Lack {
    Value,
    Depth,
    Name,
    OtherName,
    Colon,
    Comma,
    End,
}

// What is wrong with a text: it is over the limit; or at a place, counted from 0, does not stand what must stand there.
#[derive(Clone, Copy, Debug, PartialEq, Eq)]
pub enum Fault {
    Long,
    At { lack: Lack, at: usize },
}

// The fault of a text that is not accepted and not over the limit: in its value, or behind that.
pub(crate) fn in_text(text: &[u8]) -> Fault
    requires { (length text.now ≤ most_bytes) × (InGrammar text.now → ⊥) }
    ensures { FaultOf text.now (Some result) }
{
    let start = crate::blanks(text, 0);
    let Some(end) = crate::value(text, start, crate::MOST_DEPTH, true) else {
        return in_value(text, start, crate::MOST_DEPTH);
    };
    Fault::At {
        lack: Lack::End,
        at: crate::blanks(text, end),
    }
}

// The fault of a value at a place that is none.
#[cycle(in_array_in_member_in_object_in_value)]
fn in_value(s: &[u8], p: usize, depth: usize) -> Fault
    requires { p ≤ length s.now }
    ensures { StopsFrom (value_stops depth) s.now p result }
{
    if s.len() <= p {
        return Fault::At {
            lack: Lack::Value,
            at: p,
        };
    }
    if depth == 0 {
        return Fault::At {
            lack: Lack::Depth,
            at: p,
        };
    }
    if s[p] == b'{' {
        return in_object(s, p + 1, depth - 1);
    }
    if s[p] == b'[' {
        return in_array(s, p + 1, depth - 1);
    }
    Fault::At {
        lack: Lack::Value,
        at: p,
    }
}

// The fault of an array whose opening bracket stands before a place.
#[cycle(in_array_in_member_in_object_in_value)]
fn in_array(s: &[u8], p: usize, depth: usize) -> Fault
    requires { p ≤ length s.now }
    ensures { StopsFrom (array_stops depth) s.now p result }
{
    let mut at = crate::blanks(s, p);
    loop {
        let Some(e) = crate::value(s, at, depth, true) else {
            return in_value(s, at, depth);
        };
        let f = crate::blanks(s, e);
        if !stands(s, f, b',') {
            return Fault::At {
                lack: Lack::Comma,
                at: f,
            };
        }
        at = crate::blanks(s, f + 1);
    }
}

// The fault of an object whose opening bracket stands before a place.
#[cycle(in_array_in_member_in_object_in_value)]
fn in_object(s: &[u8], p: usize, depth: usize) -> Fault
    requires { p ≤ length s.now }
    ensures { StopsFrom (object_stops depth) s.now p result }
{
    let first = crate::blanks(s, p);
    let mut at = first;
    loop {
        let Some(e) = crate::member(s, at, depth, true) else {
            return in_member(s, at, depth);
        };
        if !crate::is_new(s, first, at, depth, true) {
            return Fault::At {
                lack: Lack::OtherName,
                at: at,
            };
        }
        let f = crate::blanks(s, e);
        if !stands(s, f, b',') {
            return Fault::At {
                lack: Lack::Comma,
                at: f,
            };
        }
        at = crate::blanks(s, f + 1);
    }
}

// The fault of a member at a place that is none.
#[cycle(in_array_in_member_in_object_in_value)]
fn in_member(s: &[u8], p: usize, depth: usize) -> Fault
    requires { p ≤ length s.now }
    ensures { StopsFrom (InMember (value_stops depth)) s.now p result }
{
    let Some(a) = crate::strings::string(s, p) else {
        return Fault::At {
            lack: Lack::Name,
            at: p,
        };
    };
    let b = crate::blanks(s, a);
    if !stands(s, b, b':') {
        return Fault::At {
            lack: Lack::Colon,
            at: b,
        };
    }
    let c = crate::blanks(s, b + 1);
    in_value(s, c, depth)
}

// Whether a byte stands at a place.
fn stands(s: &[u8], p: usize, b: u8) -> bool
    ensures { Decides (Stands s.now p b) result }
{
    if s.len() <= p {
        return false;
    }
    s[p] == b
}
