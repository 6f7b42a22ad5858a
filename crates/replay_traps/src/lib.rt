// What a trap's last line, an answer and an unfit line of a capture do to the replay (01, Replay program): the record is
// changed where it lies, as 58 words, and the output gets a trap's four lines or the number of the unfit one.
#![tactic(auto)]

ghost use Rattle.std.specs.Prelude.{◌≡◌};
ghost use Rattle.scope.specs.declared.machine.Outcome.{Outcome};
ghost use Rattle.scope.specs.Record.{is_idle};
ghost use Rattle.in_place_record.specs.View.{view_of};
ghost use Rattle.scope.specs.ReplyWords.{reply_word};
ghost use Rattle.replay_scope.specs.Output.{followed_by, pair_taken, saying, settled_by, settled_of, trap_started, unfit_of};
ghost use Rattle.replay_traps.specs.InPlace.{state_of, step_with};
ghost use Rattle.replay_traps.specs.Laws.{exit_by};

use in_place_answer::AnswerWords;
use replay_scope::{Gives, Line, Place, Progress};
use scope::Trap;

// The replay between two bytes of its capture: how far it is, and its record. A step changes it in place, and its result is
// what the output gets.
#[derive(Clone, Copy)]
pub struct Replay {
    pub progress: Progress,
    pub record: [u64; 58],
}

impl Replay {
    // The line at a place follows.
    pub fn follow(&mut self, place: Place)
        ensures { (self.new.progress ≡ followed_by self.old.progress place) × (self.new.record ≡ self.old.record) }
    {
        self.progress.line = Line {
            place,
            at: 0,
            value: 0,
        };
        self.progress.number = self.progress.number.wrapping_add(1);
    }

    // The line is unfit.
    pub fn unfit(&mut self) -> Gives
        ensures step { step_with self.new result ≡ unfit_of (state_of self.old) }
        ensures stays { self.new.record ≡ self.old.record }
    {
        self.progress.line.at = 0;
        self.progress.line.value = 0;
        self.progress.over = true;
        Gives::Bad {
            number: self.progress.number,
        }
    }

    // The trap's last number starts it.
    pub fn start(&mut self, htinst: u64) -> Gives
        ensures { step_with self.new result ≡ trap_started (state_of self.old) htinst }
    {
        let kept = self.progress.kept;
        let t = Trap {
            scause: kept.scause,
            stval: kept.stval,
            htval: kept.htval,
            htinst,
            room: isa_consts::CONSOLE_ROOM,
        };
        let mut out = [0u64; 8];
        let word = in_place_start::start(&mut self.record, &mut out, t);
        self.settle(word)
    }

    // An answer's or load completion's second number. What is asked stays a number, 0 where nothing is and 1 for a fetch: the
    // definition `pair_taken` speaks of it.
    pub fn pair(&mut self, more: u64) -> Gives
        ensures { step_with self.new result ≡ pair_taken (state_of self.old) more }
    {
        let word = self.progress.kept.word;
        let ask = decide_record::ask_of(in_place_read::waiting(&self.record));
        if ask == 0 {
            let w = in_place_answer::complete_load(&mut self.record, word);
            return self.settle(w);
        }
        if ask == 1 && 5 < more {
            return self.unfit();
        }
        let mut out = [0u64; 8];
        let w = in_place_answer::answer(
            &mut self.record,
            &mut out,
            AnswerWords { ask, word, more },
        );
        self.settle(w)
    }

    // After a call on the record, by the word that it returned.
    fn settle(&mut self, word: u64) -> Gives
        ensures { (o : Outcome) → view_of self.old.record ≡ o.vcpu → word ≡ reply_word o.reply → step_with self.new result ≡ settled_of self.old.progress o }
    {
        let idle = decide_record::is_idle(in_place_read::waiting(&self.record));
        self.settled(said(self.progress.exit, word), idle)
    }

    // The same: where nothing waits the trap is over, otherwise `word` follows.
    fn settled(&mut self, exit: u64, idle: bool) -> Gives
        ensures { idle ≡ is_idle (view_of self.old.record).waiting → step_with self.new result ≡ settled_by (view_of self.old.record) (saying self.old.progress exit) }
    {
        self.progress.exit = exit;
        if idle {
            self.follow(Place::Scause);
            return Gives::Trap {
                exit,
                sepc: self.record[in_place_record::SEPC],
                a0: self.record[in_place_record::A0],
                a1: self.record[in_place_record::A1],
            };
        }
        self.follow(Place::Word);
        Gives::Nothing
    }
}

// What the `exit` line says after a call, by the word that it returned: an exit's number or an error's, else what was to
// be said. Its bounds stand bare, since the definition `exit_by` has them, and the word is what the calls return.
fn said(before: u64, word: u64) -> u64
    ensures { result ≡ exit_by before word }
{
    if word < 32 {
        return word;
    }
    if word < 256 {
        return before;
    }
    word
}
