// A list, line by line.
ghost use Rattle.std.specs.Prelude.{◌≡◌, ◌+◌, ◌<◌, ◌≤◌};

use crate::files::read_front;
use std::io::Read;

// A list that never ends is cut here.
const MOST_LINES: u32 = 100_000;

// How many lines a list has, and how many of them are wrong.
#[derive(Clone, Copy)]
pub struct Tally {
    pub lines: u32,
    pub wrong: u32,
    pub ghost among: { wrong ≤ lines },
}

impl Tally {
    // One line more.
    fn with_line(self, right: bool) -> Tally
        requires { self.lines < 100000 }
        ensures { result.lines ≡ self.lines + 1 }
    {
        Tally {
            lines: self.lines + 1,
            wrong: self.wrong + u32::from(!right),
        }
    }
}

// Holds each line of a list against what it should be. `line` is lent for the bytes of one, as many as a line has; where the input
// cuts a line short, the others are zeros, and the line is wrong. `is_right` is given how many lines stand before a line, and the
// line; `tell` the number of each wrong one, from 1 on.
pub fn compare<F: Read + Drop, J: FnMut(u32, &[u8]) -> bool + Drop, T: FnMut(u32) + Drop>(
    mut list: F,
    line: &mut [u8],
    mut is_right: J,
    mut tell: T,
) -> Tally
    requires judges { J.IsAlwaysCallable is_right }
    requires tells { T.IsAlwaysCallable tell }
    ensures { result.lines ≤ 100000 }
{
    let mut tally = Tally { lines: 0, wrong: 0 };
    for before in 0..MOST_LINES {
        line.fill(0);
        let n = read_front(&mut list, line).len();
        if n == 0 {
            break;
        }
        let right = is_right(before, line) && n == line.len();
        tally = tally.with_line(right);
        if !right {
            tell(before + 1);
        }
    }
    tally
}
