// The entry for cost, a row of posts: one call on a vCPU record of 58 words where it lies, exported. 02, W4. The promise is the
// by-value outcome; `in_place_record/specs/View.antt` has the meaning of the words.
#![tactic(auto)]

ghost use Rattle.std.specs.Prelude.{◌≡◌, set};
ghost use Rattle.decide_posts.specs.Fold.{begun_of, given_of};
ghost use Rattle.in_place_record.specs.View.{MadeRow, view_of};

use decide_posts::Row;
use scope::{Post, Posted};

// Sets or clears pending interrupts of the guest in order, up to the first that is refused.
#[unsafe(no_mangle)]
pub extern "C" fn vcpu_post_row(r: &mut [u64; 58], posts: &[Post]) -> Posted
    ensures { MadeRow r.old posts.now r.new result }
{
    let s = begin(r);
    let row = decide_posts::fold(s, posts);
    finish(r, row)
}

// hvip, and whether an ask waits.
fn begin(r: &[u64; 58]) -> Row
    ensures { result ≡ begun_of (view_of r.now) }
{
    let ask = decide_record::ask_of(in_place_read::waiting(r));
    decide_posts::begin(r[in_place_record::HVIP], ask)
}

// The one write of hvip, and what the row gives.
fn finish(r: &mut [u64; 58], s: Row) -> Posted
    ensures { (r.new ≡ set r.old 42 s.hvip) × (result ≡ given_of s) }
{
    r[in_place_record::HVIP] = s.hvip;
    s.given()
}
