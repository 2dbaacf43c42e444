// What a program in C calls for the listing of a whole capture. The call `_with` takes a register map; the empty map is no sheet.
#![tactic(auto)]

ghost use Rattle.list.specs.Paper.Answers.{WroteListing};
ghost use Rattle.list.specs.Paper.Listing.{NoSheet, OfMap};

use host::answers;
use host::answers::Count;

// Writes the listing of an input from the front of the room: `list::write`.
#[unsafe(no_mangle)]
pub extern "C" fn bolsterweft_list(input: &[u8], room: &mut [u8]) -> Count
    ensures { WroteListing NoSheet input.now room.old result.refusal result.length room.new }
{
    let listing = list::write(input, room);
    answers::counted(listing)
}

// The same by a register map: `list::write_mapped`.
#[unsafe(no_mangle)]
pub extern "C" fn bolsterweft_list_with(input: &[u8], map: &[u8], room: &mut [u8]) -> Count
    ensures { WroteListing (OfMap map.now) input.now room.old result.refusal result.length room.new }
{
    let by_map = list::write_mapped(input, map, room);
    answers::counted(by_map)
}
