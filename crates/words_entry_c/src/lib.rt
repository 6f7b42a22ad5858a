// The entry over words, one call, as a static library that hosts in C and Rust link.
// Each export calls the function of its name in words_entry, and promises what that promises. Both crates stand: no crate can depend
// on a static library, and the theorems and programs above depend on that one.
#![tactic(auto)]

ghost use Rattle.words_entry.specs.Words.{Exported};

use scope::Record;
use words_call::{CallWords, ReplyWords};

// Makes a call on the host's record where it lies.
#[unsafe(no_mangle)]
pub extern "C" fn vcpu_call(v: &mut Record, c: CallWords) -> ReplyWords
    ensures { Exported v.old c v.new result }
{
    words_entry::vcpu_call(v, c)
}
