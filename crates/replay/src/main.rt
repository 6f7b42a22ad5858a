// Replays a capture from standard input, or from the file that its first argument names, to standard output
// (01, Replay program). It only reads, feeds and writes: crate replay_capture says what comes out.
#![tactic(auto)]

use replay_capture::TRAP_TEXT;
use replay_traps::Replay;
use std::env::{Env, FillError};
use std::fs::{File, Files};
use std::io::{self, Read};

// How many bytes are read at once, and room for output as large.
const PIECE: usize = 65536;

// What stops a replay.
#[derive(Drop)]
enum Failed {
    Read(io::Error),
    Write(io::Error),
}

fn main(rt: HostRuntime) {
    let mut path = [0u8; 4096];
    match rt.arg(1, &mut path) {
        Ok(length) => match str::from_utf8(&path[..length]) {
            Ok(name) => replay_file(&rt, name),
            Err(e) => {
                let _ = eprintln!(rt; "the capture's name: {e}");
            }
        },
        Err(FillError::NotPresent) => replay(&rt, rt.reader(), "standard input"),
        Err(FillError::TooLong) => {
            let _ = eprintln!(rt; "the capture's name: File name too long");
        }
    }
}

fn replay_file<R: Files + Print + Eprint>(rt: &R, name: &str) {
    match File::open(rt, name) {
        Ok(file) => replay(rt, file, name),
        Err(e) => {
            let _ = eprintln!(rt; "{name}: {e}");
        }
    }
}

// The whole capture; standard error says what failed.
fn replay<R: Print + Eprint, F: Read + Drop>(rt: &R, input: F, name: &str) {
    match replay_all(rt, input) {
        Ok(()) => {}
        Err(Failed::Read(e)) => {
            let _ = eprintln!(rt; "{name}: {e}");
        }
        Err(Failed::Write(e)) => {
            let _ = eprintln!(rt; "standard output: {e}");
        }
    }
}

// The same, and its end unless something failed.
fn replay_all<R: Print, F: Read + Drop>(rt: &R, input: F) -> Result<(), Failed> {
    let mut replay = replay_order::begin();
    read_all(rt, &mut replay, input)?;
    finish(rt, &replay)
}

// Piece by piece. Nothing says that the input ends, so the loop has a bound: 2^64 - 1 reads.
fn read_all<R: Print, F: Read + Drop>(rt: &R, replay: &mut Replay, input: F) -> Result<(), Failed> {
    let mut file = input;
    let mut buffer = [0u8; PIECE];
    let mut out = [0u8; PIECE];
    for _ in 0..u64::MAX {
        let n = file.read(&mut buffer).map_err(Failed::Read)?;
        if n == 0 {
            break;
        }
        feed(rt, replay, &buffer[..n], &mut out)?;
    }
    Ok(())
}

// Feeds a piece, and writes what it gives.
fn feed<R: Print>(
    rt: &R,
    replay: &mut Replay,
    piece: &[u8],
    out: &mut [u8; PIECE],
) -> Result<(), Failed> {
    let mut rest = piece;
    while !rest.is_empty() {
        let f = replay_capture::fill(replay, rest, out);
        rest = &rest[f.next..];
        say(rt, &out[..f.end])?;
    }
    Ok(())
}

// What the end of the capture gives.
fn finish<R: Print>(rt: &R, replay: &Replay) -> Result<(), Failed> {
    let mut out = [0u8; TRAP_TEXT];
    let end = replay_capture::write(replay_order::end(replay), &mut out);
    say(rt, &out[..end])
}

fn say<R: Print>(rt: &R, bytes: &[u8]) -> Result<(), Failed> {
    rt.write_all(bytes).map_err(Failed::Write)
}
