// Numbers.
ghost use Rattle.std.specs.Prelude.{◌≤◌, length};
ghost use Rattle.jsontext.specs.Paper.Abnf.{◌⨾◌};
ghost use Rattle.jsontext.specs.Paper.Json.{DIGIT, minus};
ghost use Rattle.jsontext.specs.Work.Tight.{Number, Int, Frac, Exp, Digits, Opt, sign};
ghost use Rattle.jsontext.specs.Work.Found.{Found, Skipped, Passed, May};

// The end of the number that stands at a place.
pub(crate) fn number(s: &[u8], p: usize) -> Option<usize>
    ensures { Found Number s.now p result }
{
    let a = behind_minus(s, p);
    let b = int(s, a)?;
    let c = frac(s, b)?;
    exp(s, c)
}

// The place behind a minus, or the same place where there is none.
fn behind_minus(s: &[u8], p: usize) -> usize
    ensures { Passed (Opt minus minus) s.now p result }
{
    if s.len() <= p {
        return p;
    }
    if s[p] == b'-' {
        return p + 1;
    }
    p
}

fn int(s: &[u8], p: usize) -> Option<usize>
    ensures { Found Int s.now p result }
{
    if s.len() <= p {
        return None;
    }
    let b = s[p];
    if b == b'0' {
        return Some(p + 1);
    }
    if b < b'1' {
        return None;
    }
    if b'9' < b {
        return None;
    }
    Some(digits(s, p + 1))
}

// The place behind a fraction, or the same place where there is none; `None` where one begins and goes wrong.
fn frac(s: &[u8], p: usize) -> Option<usize>
    requires { p ≤ length s.now }
    ensures { May Frac s.now p result }
{
    if s.len() <= p {
        return Some(p);
    }
    if s[p] != b'.' {
        return Some(p);
    }
    some_digits(s, p + 1)
}

fn exp(s: &[u8], p: usize) -> Option<usize>
    requires { p ≤ length s.now }
    ensures { May Exp s.now p result }
{
    if s.len() <= p {
        return Some(p);
    }
    let b = s[p];
    if b == b'e' {
        return signed_digits(s, p + 1);
    }
    if b == b'E' {
        return signed_digits(s, p + 1);
    }
    Some(p)
}

fn signed_digits(s: &[u8], p: usize) -> Option<usize>
    ensures { Found (Opt sign sign ⨾ Digits) s.now p result }
{
    some_digits(s, behind_sign(s, p))
}

fn behind_sign(s: &[u8], p: usize) -> usize
    ensures { Passed (Opt sign sign) s.now p result }
{
    if s.len() <= p {
        return p;
    }
    let b = s[p];
    if b == b'-' {
        return p + 1;
    }
    if b == b'+' {
        return p + 1;
    }
    p
}

// The end of one digit or more.
fn some_digits(s: &[u8], p: usize) -> Option<usize>
    ensures { Found Digits s.now p result }
{
    if s.len() <= p {
        return None;
    }
    let b = s[p];
    if b < b'0' {
        return None;
    }
    if b'9' < b {
        return None;
    }
    Some(digits(s, p + 1))
}

// The place behind the digits that stand at a place.
fn digits(s: &[u8], p: usize) -> usize
    ensures { Skipped DIGIT s.now p result }
{
    // (By a `for`, as in `blanks`, numbers of one digit take a sixth longer.)
    let mut i = p;
    while i < s.len() {
        let b = s[i];
        if b < b'0' {
            return i;
        }
        if b'9' < b {
            return i;
        }
        i += 1;
    }
    i
}
