// The calls of `host_list` for a program in C, exported under the same names: each function here is one call of the function there, and has its
// contract.
#![tactic(auto)]

ghost use Rattle.list.specs.Paper.Answers.{WroteListing};
ghost use Rattle.list.specs.Paper.Listing.{NoSheet, OfMap};

use host::answers::Count;

// Writes the listing of an input from the front of the room: `list::write`.
#[unsafe(no_mangle)]
pub extern "C" fn bolsterweft_list(input: &[u8], room: &mut [u8]) -> Count
    ensures { WroteListing NoSheet input.now room.old result.refusal result.length room.new }
{
    host_list::bolsterweft_list(input, room)
}

// The same by a register map: `list::write_mapped`.
#[unsafe(no_mangle)]
pub extern "C" fn bolsterweft_list_with(input: &[u8], map: &[u8], room: &mut [u8]) -> Count
    ensures { WroteListing (OfMap map.now) input.now room.old result.refusal result.length room.new }
{
    host_list::bolsterweft_list_with(input, map, room)
}
