// Replays the captures that its arguments name and compares each output with the expected one, byte for byte. For an
// argument NAME the capture is NAME.capture and its output NAME.replay; docs/CAPTURES.md says where both come from.
#![tactic(auto)]

ghost use Rattle.std.specs.Prelude.{◌≡◌, ◌≤◌, ◌==◌, length, take};
ghost use Rattle.std.specs.List.{prefix_len, zip};
ghost use Rattle.test_replays.specs.Judged.{Judged};

use replay_capture::TRAP_TEXT;
use std::env::{Env, FillError};
use std::fmt;
use std::fs::Files;
use test_lines::files::front_of;

// The longest name of a file.
const NAME: usize = 4096;

// The longest capture, and the longest output.
const LONGEST: usize = 65536;

// The first byte of a replay's output, counted from 0, that is another than the expected output's, or that one of the two has not.
#[derive(Drop)]
struct Differs(usize);

impl fmt::Display for Differs {
    fn fmt<W: fmt::Write>(&self, f: &mut fmt::Formatter<W>) -> fmt::Result {
        let at = self.0;
        write!(f, "byte {at} of the output differs")
    }
}

fn main(rt: HostRuntime) {
    let captures = capture_count(&rt);
    let different = (1..=captures).filter(|i| !is_same(&rt, *i)).count();
    let _ = println!(rt; "{captures} captures, {different} different");
}

// How many arguments there are behind the program's name.
fn capture_count<R: Env>(rt: &R) -> usize {
    (1..usize::MAX).take_while(|i| is_there(rt, *i)).count()
}

fn is_there<R: Env>(rt: &R, argument: usize) -> bool {
    !matches!(rt.arg(argument, &mut []), Err(FillError::NotPresent))
}

// Whether the output of the capture that an argument names is the expected one. (The program replay reads a name likewise: one function
// for both would take their texts, and what each does where there is none.)
fn is_same<R: Env + Files + Print + Eprint>(rt: &R, argument: usize) -> bool {
    let mut space = [0u8; NAME];
    let Ok(n) = rt.arg(argument, &mut space) else {
        let _ = eprintln!(rt; "the name of a capture: File name too long");
        return false;
    };
    match str::from_utf8(&space[..n]) {
        Ok(name) => replay(rt, name),
        Err(e) => {
            let _ = eprintln!(rt; "the name of a capture: {e}");
            false
        }
    }
}

// Holds the capture's output against the expected one, and says where it differs.
fn replay<R: Files + Print + Eprint>(rt: &R, name: &str) -> bool {
    let mut capture = [0; LONGEST];
    let capture = read(rt, name, ".capture", &mut capture);
    let mut expected = [0; LONGEST];
    let expected = read(rt, name, ".replay", &mut expected);
    match judge(capture, expected) {
        Ok(()) => true,
        Err(e) => {
            let _ = println!(rt; "{name}: {e}");
            false
        }
    }
}

// `Ok` only where the replay of the capture is the expected output.
fn judge(capture: &[u8], expected: &[u8]) -> Result<(), Differs>
    ensures { Judged capture.now expected.now result }
{
    let mut out = [0u8; LONGEST];
    let mut replay = replay_order::begin();
    let f = replay_capture::fill(&mut replay, capture, &mut out);
    let e = f.end;
    if f.next < capture.len() {
        return Err(Differs(e));
    }
    let n = agree(&out[..e], expected);
    if n < e {
        return Err(Differs(n));
    }
    let mut last = [0u8; TRAP_TEXT];
    let k = replay_capture::write(replay_order::end(&replay), &mut last);
    let m = agree(&last[..k], &expected[e..]);
    if m < k {
        return Err(Differs(e.wrapping_add(m)));
    }
    if k < expected.len() - e {
        return Err(Differs(e.wrapping_add(k)));
    }
    Ok(())
}

// How many bytes two slices have alike, from the first on: what `equal_pairs` counts, in the words that `judge` needs.
fn agree(a: &[u8], b: &[u8]) -> usize
    ensures { (result ≤ length a.now) × (result ≤ length b.now) × (take result a.now ≡ take result b.now) }
{
    equal_pairs(a, b)
}

// How many of the pairs of two slices' bytes are equal, from the first on.
fn equal_pairs(a: &[u8], b: &[u8]) -> usize
    ensures { result ≡ prefix_len (λ p. p.0 == p.1) (zip a.now b.now) }
{
    a.iter().zip(b).take_while(|(x, y)| x == y).count()
}

// The front of NAME.capture or NAME.replay, as much as has room. A file that is missing is empty. There is no heap, so the path is put
// together in an array, with its length beside it: the zip ends where the array does.
fn read<'a, R: Files + Eprint>(rt: &R, name: &str, kind: &str, space: &'a mut [u8]) -> &'a [u8]
    ensures { length result.now ≤ length space.old }
{
    let mut path = [0; NAME];
    for (to, from) in path.iter_mut().zip(name.bytes().chain(kind.bytes())) {
        *to = from;
    }
    let n = name.len().saturating_add(kind.len()).min(NAME);
    match str::from_utf8(&path[..n]) {
        Ok(path) => front_of(rt, path, space),
        Err(_) => {
            let _ = eprintln!(rt; "{name}{kind}: File name too long");
            &[]
        }
    }
}
