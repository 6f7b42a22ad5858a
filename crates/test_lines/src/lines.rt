// What the bytes of a line spell, and whether they are what they should be.
ghost use Rattle.std.specs.Prelude.{◌≡◌, ◌<◌, ◌++◌, true, reverse, IsTrue, IfSome};
ghost use Rattle.std.specs.List.{fold};
ghost use Rattle.test_lines.specs.Digits.{digit_byte, digit_said, spelled_digit, with_digit};

use std::fmt;
use std::fmt::{Display, Write};

// The number that hex digits in lower case spell, in 64 bits. Other bytes spell one too: what a program does on a line that is wrong,
// and on the lines after it, hangs on that number.
pub fn number(digits: &[u8]) -> u64
    ensures { result ≡ fold with_digit 0 digits.now }
{
    digits.iter().fold(0, |n, digit| n % 0x1000_0000_0000_0000 * 16 + value(*digit))
}

// By hand, since `char::to_digit` has no number for the other bytes.
fn value(digit: u8) -> u64
    ensures value { result ≡ spelled_digit digit }
    ensures bound { result < 16 }
{
    if digit < b'a' {
        u64::from(digit % 16)
    } else {
        u64::from((digit - 87) % 16)
    }
}

// Whether bytes are digits of this number, as many as there are bytes. A line of numbers is held by this and not by `says`: what std prints
// goes through a formatter for each number, which took more than half of a list's time.
pub fn spells(digits: &[u8], n: u64) -> bool
    ensures { result ≡ (fold digit_said (n, true) (reverse digits.now)).1 }
{
    digits
        .iter()
        .rev()
        .fold((n, true), |(rest, so_far), byte| {
            (rest / 16, so_far && *byte == digit_byte(rest % 16))
        })
        .1
}

// The byte of a digit, in lower case.
fn digit_byte(digit: u64) -> u8
    requires { digit < 16 }
    ensures { result ≡ digit_byte digit }
{
    if digit < 10 {
        b'0' + digit as u8
    } else {
        b'a' - 10 + digit as u8
    }
}

// Whether a line is what a text prints, no more and no less.
pub fn says<D: Display + Drop>(line: &[u8], text: D) -> bool
    ensures { IsTrue result → IfSome (D.output text) (λ printed. line.now ≡ printed) }
{
    let mut unsaid = Unsaid(line);
    unsaid.write(text).is_ok() && unsaid.0.is_empty()
}

// The end of a line that is still to be printed. What is printed and is not its front is refused.
#[derive(Drop)]
struct Unsaid<'a>(&'a [u8]);

impl Write for Unsaid<'_> {
    ghost write_str_gives = { λ before printed after. before.0.now ≡ printed ++ after.0.now };

    fn write_str(&mut self, s: &str) -> fmt::Result {
        let Some(rest) = self.0.strip_prefix(s.as_bytes()) else {
            return Err(fmt::Error);
        };
        self.0 = rest;
        Ok(())
    }
}
