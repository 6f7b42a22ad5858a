// How a call ends: an effect for each kind of end, built in one place. scope/specs/Refusals.antt defines them, of the CSRs and of what waits
// apart: most ends keep the one and change the other, so that a struct of the two would be taken apart at each call.
#![tactic(auto)]

ghost use Rattle.std.specs.Prelude.{◌≡◌, eqb};
ghost use Rattle.scope.specs.Refusals.{asking_of, done_of, failed_of, finished_of, refused_of};
ghost use Rattle.scope.specs.Record.{no_args};
ghost use Rattle.isa_types.specs.Pick.{pick};
ghost use Rattle.scope.specs.declared.traps.Error.TheVariants as error;
ghost use Rattle.scope.specs.declared.machine.Event.TheVariants as event;
ghost use Rattle.scope.specs.declared.machine.Writes.TheVariants as writes;

use scope::{Args, Ask, Csrs, Effect, Error, Event, Exit, Reply, Waiting, Writes};

// The trap is finished with an exit.
#[tactic(auto, unfolding(scope::specs::Refusals::finished_of))]
pub fn finished(csrs: Csrs, event: Event, writes: Writes, exit: Exit) -> Effect
    ensures { result ≡ finished_of csrs event writes exit }
{
    Effect {
        event,
        writes,
        ..replying(csrs, Waiting::Idle, Reply::Exit(exit))
    }
}

// The trap waits for an answer. No register and no CSR changes.
#[tactic(auto, unfolding(scope::specs::Refusals::asking_of))]
pub fn asking(csrs: Csrs, event: Event, waits: Waiting, ask: Ask) -> Effect
    ensures { result ≡ asking_of csrs event waits ask }
{
    Effect {
        event,
        ..replying(csrs, waits, Reply::Ask(ask))
    }
}

// The trap ends in an error. No register and no CSR changes.
#[tactic(auto, unfolding(scope::specs::Refusals::failed_of))]
pub fn failed(csrs: Csrs, seen: Event, error: Error) -> Effect
    ensures { result ≡ failed_of csrs seen error }
{
    Effect {
        event: seen,
        ..replying(csrs, Waiting::Idle, Reply::Error(error))
    }
}

// The call is refused. Nothing changes.
#[tactic(auto, unfolding(scope::specs::Refusals::leaves_of, scope::specs::Refusals::refused_of))]
pub fn refused(csrs: Csrs, kept: Waiting, error: Error) -> Effect
    ensures { result ≡ refused_of csrs kept error }
{
    replying(csrs, kept, Reply::Error(error))
}

// The call is done. What waits goes on waiting.
#[tactic(auto, unfolding(scope::specs::Refusals::done_of))]
pub fn done(csrs: Csrs, writes: Writes, still: Waiting) -> Effect
    ensures { result ≡ done_of csrs writes still }
{
    Effect {
        writes,
        ..replying(csrs, still, Reply::Done)
    }
}

// The effect, unless an ask waits: then refusal 2. `ask` is its number, 0 where none waits.
#[tactic(auto, unfolding(scope::specs::Refusals::refused_of))]
pub fn guarded(ask: u64, csrs: Csrs, waiting: Waiting, e: Effect) -> Effect
    ensures { result ≡ pick (eqb ask 0) e (refused_of csrs waiting error.BadState) }
{
    if ask == 0 {
        return e;
    }
    refused(csrs, waiting, Error::BadState)
}

// An effect that counts nothing and writes no register.
#[tactic(auto, unfolding(scope::specs::Record::no_args))]
fn replying(csrs: Csrs, waiting: Waiting, reply: Reply) -> Effect
    ensures { result ≡ record { csrs = csrs; event = event.Quiet; writes = writes.Keep; waiting = waiting; reply = reply; args = no_args } }
{
    Effect {
        csrs,
        event: Event::Quiet,
        writes: Writes::Keep,
        waiting,
        reply,
        args: Args::default(),
    }
}
