// A row of posts as the host's compiler sees it: one exported function over words. words_record has the record. 02, W4.
#![tactic(auto)]

ghost use Rattle.std.specs.Prelude.{◌≡◌};
ghost use Rattle.words_entry_posts.specs.Words.{ExportedRow, exported_row};

use scope::{Post, Posted, Record};

// Sets or clears pending interrupts of the guest in order, up to the first that is refused, on the host's record where it lies.
#[unsafe(no_mangle)]
pub extern "C" fn vcpu_call_posts(v: &mut Record, posts: &[Post]) -> Posted
    ensures { ExportedRow v.old posts.now v.new result }
{
    let after = post(*v, posts);
    *v = after.0;
    after.1
}

// The same by value. The words of what waits stay.
#[tactic(auto, unfolding(crate::specs::Words::exported_row, scope::specs::Posts::left_posted))]
pub fn post(r: Record, posts: &[Post]) -> (Record, Posted)
    ensures { result ≡ exported_row r posts.now }
{
    let o = by_value_posts::post(words_record::unpack(r), posts);
    (words_record::lay(o.vcpu, r.waiting), o.posted)
}
