// The entry over words, a row of posts, as a static library that hosts in C and Rust link.
// Each export calls the function of its name in words_entry_posts, and promises what that promises. Both crates stand: no crate can depend
// on a static library, and the theorems and programs above depend on that one.
#![tactic(auto)]

ghost use Rattle.words_entry_posts.specs.Words.{ExportedRow};

use scope::{Post, Posted, Record};

// Sets or clears pending interrupts of the guest in order, up to the first that is refused, on the host's record where it lies.
#[unsafe(no_mangle)]
pub extern "C" fn vcpu_call_posts(v: &mut Record, posts: &[Post]) -> Posted
    ensures { ExportedRow v.old posts.now v.new result }
{
    words_entry_posts::vcpu_call_posts(v, posts)
}
