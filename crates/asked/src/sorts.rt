// Whether a value is of a sort, whatever its limits.
ghost use Rattle.std.specs.Prelude.{◌≤◌, length};
ghost use Rattle.digits.specs.Paper.Read.{Decides};
ghost use Rattle.shapes.specs.Paper.Shapes.{bytes, digits};
ghost use Rattle.asked.specs.Work.Lacks.{Spelt, SpeltAs, decimals_of};

use crate::{readings, strings, values, wholes};
use shapes::Sort;

// Whether a value is of a sort. The room is for digits.
pub(crate) fn spells(v: &[u8], sort: Sort, digits: &mut [u8; strings::MOST]) -> bool
    requires { decimals_of sort ≤ 3 }
    ensures { Decides (SpeltAs v.now sort) result }
{
    let mut room = [0u8; 256];
    match sort {
        Sort::Nothing => false,
        Sort::Number => values::is_spelt(wholes::whole(v, 0, 0)),
        Sort::Bytes(n) => {
            let n = n as usize;
            are_bytes(v, digits, &mut room[0..n])
        }
        Sort::Digits(n) => {
            let n = n as usize;
            are_digits(v, &mut room[0..n])
        }
        Sort::Content => values::is_spelt(strings::hex(v, digits, &mut room)),
        Sort::Text => values::is_spelt(strings::chars(v, &mut room)),
        Sort::Truth => values::is_spelt(values::truth(v)),
        Sort::Reading(decimals) => {
            values::is_spelt(readings::reading(v, decimals as u32, 0, 0, digits))
        }
    }
}

// Whether a value is as many bytes in hex as the room has.
fn are_bytes(v: &[u8], digits: &mut [u8; strings::MOST], room: &mut [u8]) -> bool
    ensures { Decides (Spelt v.now (bytes (length room.old))) result }
{
    let n = room.len();
    values::exact(strings::hex(v, digits, room), n).is_ok()
}

// Whether it is as many hex digits as the room has.
fn are_digits(v: &[u8], room: &mut [u8]) -> bool
    ensures { Decides (Spelt v.now (digits (length room.old))) result }
{
    let n = room.len();
    let read = strings::chars(v, room);
    if !strings::are_digits(room) {
        return false;
    }
    values::exact(read, n).is_ok()
}
