// What a program in C calls: thin functions over numbers and byte slices, described in include/bolsterweft.h. An answer is a struct by
// value, its first member the refusal number; a refusal's other members are zeros. A number that is too large for what is called is
// refused like one that is not known, and never cut.
//
// Lines, the listing, the register sheet, commands as JSON and the book are in crates of their own, `host_lines`, `host_list`, `host_sheet`,
// `host_asked` and `host_book`, and so in objects of their own. A program links what it calls, and the compiler makes each as quick as if it were alone.
#![tactic(auto)]

pub mod answers;
pub mod frame_calls;
pub mod number_calls;

ghost use Rattle.std.specs.Prelude.{◌≡◌};
ghost use Rattle.host.specs.Paper.Version.{version};

// The version of the library: a program can see by it whether its header is of the same version.
#[unsafe(no_mangle)]
pub extern "C" fn bolsterweft_version() -> u32
    ensures { result ≡ version }
{
    10_500
}
