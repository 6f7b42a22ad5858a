// The entry for cost, a row of posts, as a static library that hosts in C and Rust link.
// Each export calls the function of its name in in_place_entry_posts, and promises what that promises. Both crates stand: no crate can depend
// on a static library, and the theorems and programs above depend on that one.
#![tactic(auto)]

ghost use Rattle.in_place_record.specs.View.{MadeRow};

use scope::{Post, Posted};

// Sets or clears pending interrupts of the guest in order, up to the first that is refused.
#[unsafe(no_mangle)]
pub extern "C" fn vcpu_post_row(r: &mut [u64; 58], posts: &[Post]) -> Posted
    ensures { MadeRow r.old posts.now r.new result }
{
    in_place_entry_posts::vcpu_post_row(r, posts)
}
