// What a replay is (01, Replay program): the types here, and in specs/ one file for the lines (Lines.antt) and one for
// the whole output (Output.antt). There is no code; the other replay crates cite these definitions.
#![tactic(auto)]

use scope::Vcpu;

// Where a line stands in a capture.
#[derive(Clone, Copy)]
pub enum Place {
    // Line i of the header, from 0: sepc, vstimecmp, x01 to x31. A number, since `header_key`, `headed_of` and `after_header` speak of it.
    Header(usize),
    // The four lines of a trap.
    Scause,
    Stval,
    Htval,
    Htinst,
    // The two lines of an answer or of a load's completion.
    Word,
    More,
}

// What is known of a line after some of its bytes.
#[derive(Clone, Copy)]
pub enum Got {
    // So many bytes fit, and the digits among them make this number.
    More(usize, u64),
    // The line is whole.
    Whole(u64),
    // A byte does not fit.
    Unfit,
}

// The line that is being read: how many of its bytes were read, and the number that its digits make so far.
#[derive(Clone, Copy)]
pub struct Line {
    pub place: Place,
    pub at: usize,
    pub value: u64,
}

// The numbers of earlier lines that a later one needs.
#[derive(Clone, Copy)]
pub struct Kept {
    pub scause: u64,
    pub stval: u64,
    pub htval: u64,
    pub word: u64,
}

// The replay between two bytes of its capture, but for its record.
#[derive(Clone, Copy)]
pub struct Progress {
    pub line: Line,
    // The line's number, from 1.
    pub number: u64,
    pub kept: Kept,
    // What the trap's `exit` line will say.
    pub exit: u64,
    // Whether an unfit line was found. A flag beside the line, since `over_at` and `byte_of` speak of both.
    pub over: bool,
}

// What the output gets.
#[derive(Clone, Copy)]
pub enum Gives {
    // A case and no Option around the two others, since `text_of`, `silent` and the theorems on them speak of it.
    Nothing,
    Trap {
        exit: u64,
        sepc: u64,
        a0: u64,
        a1: u64,
    },
    Bad {
        number: u64,
    },
}

// The replay between two bytes of its capture.
#[derive(Clone, Copy)]
pub struct State {
    pub vcpu: Vcpu,
    pub progress: Progress,
}

// The later state, and what the output gets.
#[derive(Clone, Copy)]
pub struct Step {
    pub state: State,
    pub gives: Gives,
}
