// A row of posts in one call, on a record by value and on the host's record where it lies. 02, W4.
#![tactic(auto)]

ghost use Rattle.std.specs.Prelude.{◌≡◌};
ghost use Rattle.scope.specs.Posts.{posted_of};
ghost use Rattle.decide_posts.specs.Fold.{begun_of, ended_of};
ghost use Rattle.by_value_posts.specs.Lent.{StoredRow};

use decide_posts::Row;
use scope::{Post, Posted, RowOutcome, Vcpu};

// Sets or clears pending interrupts of the guest in order, up to the first that is refused.
#[tactic(auto, using(decide_posts::specs::RowLaws::folded), unfolding(decide_posts::specs::Fold::begun_of, decide_posts::specs::Fold::begun_by))]
pub fn post(v: Vcpu, posts: &[Post]) -> RowOutcome
    ensures { result ≡ posted_of v posts.now }
{
    let row = decide_posts::fold(begun(v), posts);
    ended(v, row)
}

// The same on the host's record where it lies.
pub fn post_in_place(v: &mut Vcpu, posts: &[Post]) -> Posted
    ensures { StoredRow v.old posts.now v.new result }
{
    let RowOutcome { vcpu, posted } = post(*v, posts);
    *v = vcpu;
    posted
}

// hvip, and whether an ask waits.
#[tactic(auto, unfolding(decide_posts::specs::Fold::begun_of))]
fn begun(v: Vcpu) -> Row
    ensures { result ≡ begun_of v }
{
    decide_posts::begin(v.csrs.hs.hvip, decide_record::ask_of(v.waiting))
}

// The record with hvip as the row leaves it, and what the row gives.
#[tactic(auto, unfolding(decide_posts::specs::Fold::ended_of, decide_posts::specs::Fold::given_of, scope::specs::Posts::row_of, scope::specs::PostsLaws::with_hvip))]
fn ended(v: Vcpu, s: Row) -> RowOutcome
    ensures { result ≡ ended_of v s }
{
    // before the record is touched: the compiler would copy it for each way that a row can end
    let posted = s.given();
    let mut vcpu = v;
    vcpu.csrs = decide_record::with_hvip(v.csrs, s.hvip);
    RowOutcome { vcpu, posted }
}
