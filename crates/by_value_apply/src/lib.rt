// An effect applied to a record: the one place where a record changes. scope/specs/Record.antt defines it.
#![tactic(auto)]

ghost use Rattle.std.specs.Prelude.{◌≡◌};
ghost use Rattle.scope.specs.Record.{counted, stored, applied};
ghost use Rattle.scope.specs.Refusals.{unless_asking};

use scope::{Effect, Event, Outcome, Vcpu, Writes};
use words_numbers::Numbered;

// The outcome of an effect on a record.
#[tactic(auto, unfolding(scope::specs::Record::applied, scope::specs::Record::listed))]
pub fn apply(v: Vcpu, e: Effect) -> Outcome
    ensures { result ≡ applied v e }
{
    let x = stored(v.x, e.writes);
    let counts = counted(v.counts, e.event);
    // no From: Args is scope's, which holds no code
    let args = [
        e.args.a0, e.args.a1, e.args.a2, e.args.a3, e.args.a4, e.args.a5,
    ];
    Outcome {
        vcpu: Vcpu {
            x,
            csrs: e.csrs,
            counts,
            waiting: e.waiting,
        },
        reply: e.reply,
        args,
    }
}

// The outcome of an effect, unless an ask waits: then refusal 2.
#[tactic(auto, unfolding(scope::specs::Refusals::unless_asking))]
pub fn unless_asking(v: Vcpu, e: Effect) -> Outcome
    ensures { result ≡ applied v (unless_asking v e) }
{
    let ask = decide_record::ask_of(v.waiting);
    apply(v, decide_effects::guarded(ask, v.csrs, v.waiting, e))
}

// The registers after a write; x0 is never written.
#[tactic(auto, unfolding(scope::specs::Record::stored))]
fn stored(x: [u64; 32], w: Writes) -> [u64; 32]
    ensures { result ≡ stored x w }
{
    match w {
        Writes::Keep => x,
        Writes::One(i, n) => {
            if i != 0 && i < 32 {
                let mut y = x;
                y[i] = n;
                return y;
            }
            x
        }
        Writes::Pair(a0, a1) => {
            let mut y = x;
            y[10] = a0;
            y[11] = a1;
            y
        }
    }
}

// One more in the count of an event; number 0 is no event.
#[tactic(auto, unfolding(scope::specs::Record::counted, scope::specs::Record::bumped))]
fn counted(counts: [u64; 9], e: Event) -> [u64; 9]
    ensures { result ≡ counted counts e }
{
    let n = e.number() as usize;
    if n != 0 && n < 10 {
        let mut k = counts;
        k[n - 1] = k[n - 1].wrapping_add(1);
        return k;
    }
    counts
}
