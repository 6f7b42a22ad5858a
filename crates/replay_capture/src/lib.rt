// A capture replayed: its bytes are fed to a state in pieces, and what they give is written to a buffer
// (01, Replay program). Its meaning is one definition, replay_of in replay_scope's specs/Output.antt, from all bytes to
// all output; the record lies in place as 58 words.
#![tactic(auto)]

ghost use Rattle.std.specs.Prelude.{◌+◌, ◌≤◌, length};
ghost use Rattle.replay_output.specs.Put.{Put};
ghost use Rattle.replay_scope.specs.Output.{text_of};
ghost use Rattle.replay_traps.specs.InPlace.{state_of, step_with};
ghost use Rattle.replay_capture.specs.Feeds.{Feeds, Fills};

use replay_scope::Gives;
use replay_traps::Replay;

// A trap's four lines.
pub const TRAP_TEXT: usize = 84;

// Where the bytes begin that were not fed, and how much of the buffer is output: numbers, of which the definition `Fills` speaks.
#[derive(Clone, Copy)]
pub struct Filled {
    pub next: usize,
    pub end: usize,
}

// What bytes to the end of a line give, and how many they are.
#[derive(Clone, Copy)]
pub struct Fed {
    pub gives: Gives,
    pub next: usize,
}

// Feeds bytes, and writes what they give to the buffer, until the bytes are over or the buffer has no room for another
// trap. A buffer of 84 bytes or more takes some of them. A loop by hand, here and in the program: how much of the rest is taken the
// callee says, and an iterator that cuts it there would be no plainer.
pub fn fill(replay: &mut Replay, bytes: &[u8], out: &mut [u8]) -> Filled
    ensures { Fills (state_of replay.old) bytes.now (length out.old) out.new (state_of replay.new) result.next result.end }
{
    let mut rest = bytes;
    let mut end: usize = 0;
    while !rest.is_empty() {
        if out.len() < TRAP_TEXT || out.len() - TRAP_TEXT < end {
            break;
        }
        let f = feed(replay, rest);
        rest = &rest[f.next..];
        end = put(f.gives, out, end);
    }
    Filled {
        next: bytes.len() - rest.len(),
        end,
    }
}

// Feeds bytes to the end of a line or of the bytes: what they give, and how many they are.
fn feed(replay: &mut Replay, bytes: &[u8]) -> Fed
    ensures { Feeds (state_of replay.old) bytes.now (step_with replay.new result.gives) result.next }
{
    if replay.progress.over {
        return Fed {
            gives: Gives::Nothing,
            next: bytes.len(),
        };
    }
    let part = replay_lines::read(replay.progress.line, bytes);
    Fed {
        gives: replay_order::take(replay, part.got),
        next: part.next,
    }
}

// Writes what was given at the buffer's start, and says where it ends.
pub fn write(g: Gives, out: &mut [u8; TRAP_TEXT]) -> usize
    ensures { Put out.old 0 (text_of g) result out.new }
{
    put(g, out, 0)
}

// The same at a place where there is room: an argument, since the promise, `Put`, speaks of it.
fn put(g: Gives, out: &mut [u8], at: usize) -> usize
    requires { at + 84 ≤ length out.old }
    ensures { Put out.old at (text_of g) result out.new }
{
    match g {
        Gives::Nothing => at,
        Gives::Trap { exit, sepc, a0, a1 } => {
            let p = replay_output::put(b"exit=", exit, out, at);
            let q = replay_output::put(b"sepc=", sepc, out, p);
            let r = replay_output::put(b"a0=", a0, out, q);
            replay_output::put(b"a1=", a1, out, r)
        }
        Gives::Bad { number } => replay_output::put(b"bad=", number, out, at),
    }
}
