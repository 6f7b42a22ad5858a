// A row of posts, folded over hvip up to the first that is refused. 01, Which shape goes where; 02, W4.
#![tactic(auto)]

ghost use Rattle.std.specs.Prelude.{◌≡◌, ◌<◌, ◌-◌, ◌^◌};
ghost use Rattle.decide_posts.specs.Fold.{applied_by, begun_by, fold_of, given_of};

use scope::{Error, Post, Posted};
use words_numbers::{FromNumber, Numbered};

// How far a row has come: hvip, how many posts were applied, and the number of the refusal that stopped it. (A number and no Error: a
// row may have been stopped by any, and the fold leaves it.)
#[derive(Clone, Copy)]
pub struct Row {
    pub hvip: u64,
    pub applied: u64,
    pub refusal: Option<u64>,
}

impl Row {
    // What the row gives: a refusal's number, and 0 for none.
    #[tactic(auto, unfolding(crate::specs::Fold::given_of, crate::specs::Fold::refusal_number))]
    pub fn given(self) -> Posted
        ensures { result ≡ given_of self }
    {
        let refusal = match self.refusal {
            None => 0,
            Some(number) => number,
        };
        Posted {
            applied: self.applied,
            refusal,
        }
    }
}

// Before the first post: while an ask waits the row is refused as a whole. `ask` is its number, as begun_by takes it.
#[tactic(auto, unfolding(crate::specs::Fold::begun_by))]
pub fn begin(hvip: u64, ask: u64) -> Row
    ensures { result ≡ begun_by hvip ask }
{
    let refusal = if ask == 0 {
        None
    } else {
        Some(Error::BadState.number())
    };
    Row {
        hvip,
        applied: 0,
        refusal,
    }
}

// The row, in order, up to the post that stops it.
pub fn fold(s: Row, posts: &[Post]) -> Row
    requires { s.applied ≡ 0 }
    ensures { result ≡ fold_of s posts.now }
{
    let mut row = s;
    for p in posts {
        if row.refusal.is_some() {
            break;
        }
        row = apply(
            row,
            decide_host::line_of(p.vector),
            bool::from_number(p.level),
        );
    }
    row
}

// The bit of hvip set or cleared; a vector that stands for no bit stops the row.
#[tactic(auto, unfolding(crate::specs::Fold::applied_by))]
fn apply(s: Row, line: u64, on: bool) -> Row
    requires { s.applied < 2 ^ 64 - 1 }
    ensures { result ≡ applied_by s line on }
{
    if line == 0 {
        return Row {
            refusal: Some(Error::InvalidInput.number()),
            ..s
        };
    }
    Row {
        hvip: isa_registers::with_bits(s.hvip, line, on),
        applied: s.applied + 1,
        refusal: None,
    }
}
