// What a program in C calls of `host`, exported under the same names: each function here is one call of the function there, and has its
// contract. A static library is no library for other crates, and `host` is one for `claims`.
//
// Lines, the listing, the register sheet, commands as JSON and the book are exported by crates of their own, `host_lines_c`, `host_list_c`,
// `host_sheet_c`, `host_asked_c` and `host_book_c`, and so are in objects of their own. A program links what it calls, and the compiler makes each as quick as if it were alone.
#![tactic(auto)]

pub mod frame_calls;
pub mod number_calls;

ghost use Rattle.std.specs.Prelude.{◌≡◌};
ghost use Rattle.host.specs.Paper.Version.{version};

// The version of the library: a program can see by it whether its header is of the same version.
#[unsafe(no_mangle)]
pub extern "C" fn bolsterweft_version() -> u32
    ensures { result ≡ version }
{
    host::bolsterweft_version()
}
