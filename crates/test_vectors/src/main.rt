// Runs the decoder and the extension over the lists in data/ and counts the lines on which they give something else.
// docs/VECTORS.md says what a line of each list is.
#![tactic(auto)]

ghost use Rattle.std.specs.Prelude.{◌<◌};

use isa_decoder::{Decoded, Trapped};
use isa_types::Width;
use std::env::Env;
use std::fs::Files;
use test_lines::files::open_list;
use test_lines::lines::{number, spells};
use test_lines::lists::compare;
use words_numbers::Numbered;

// The arguments name the lists, in this order.
fn main(rt: HostRuntime) {
    pairs(&rt, 1, decoded);
    pairs(&rt, 2, fetched);
    pairs(
        &rt,
        3,
        |htinst| of_trapped(isa_decoder::from_htinst(htinst)),
    );
    pairs(&rt, 4, |n| isa_extension::extend(Width::Byte, true, n));
    pairs(&rt, 5, |n| isa_extension::extend(Width::Half, true, n));
    pairs(&rt, 6, |n| isa_extension::extend(Width::Word, true, n));
    pairs(&rt, 7, |n| isa_extension::extend(Width::Double, true, n));
    pairs(&rt, 8, |n| isa_extension::extend(Width::Byte, false, n));
    pairs(&rt, 9, |n| isa_extension::extend(Width::Half, false, n));
    pairs(&rt, 10, |n| isa_extension::extend(Width::Word, false, n));
    pairs(&rt, 11, |n| isa_extension::cut(Width::Byte, n));
    pairs(&rt, 12, |n| isa_extension::cut(Width::Half, n));
    pairs(&rt, 13, |n| isa_extension::cut(Width::Word, n));
    pairs(&rt, 14, |n| isa_extension::cut(Width::Double, n));
    // the same list twice: the upper 16 bits of a fetched word, here all 0 and all 1, are not looked at
    packed(&rt, 15, 0);
    packed(&rt, 16, 0xffff_0000);
    executed(&rt, 17);
    // every line of these is wrong, and all but one in one byte alone: they show that each comparison can say so
    pairs(&rt, 18, decoded);
    packed(&rt, 19, 0x4000);
    executed(&rt, 20);
}

// A list whose lines are pairs: an input and the expected answer, each of 16 hex digits.
fn pairs<R: Env + Files + Print + Eprint, A: Fn(u64) -> u64 + Drop>(
    rt: &R,
    argument: usize,
    answer: A,
)
    requires { A.IsAlwaysCallable answer }
{
    hold(
        rt,
        argument,
        &mut [0; 34],
        |_, line| is_pair(line, &answer, b'\n'),
    );
}

// A list whose lines are the answers for 48 words of 16 bits, each of 5 digits. The first line's words begin at this one.
fn packed<R: Env + Files + Print + Eprint>(rt: &R, argument: usize, start: u32) {
    hold(
        rt,
        argument,
        &mut [0; 241],
        |before, line| is_packed(line, u64::from(start) + u64::from(before) * 64),
    );
}

// A list whose lines are two pairs: a fetched word and its answer, a number and what that load or store makes of it.
fn executed<R: Env + Files + Print + Eprint>(rt: &R, argument: usize) {
    hold(rt, argument, &mut [0; 68], |_, line| is_executed(line));
}

// Compares one list, and writes its name, its lines and how many of them are wrong.
fn hold<R: Env + Files + Print + Eprint, J: FnMut(u32, &[u8]) -> bool + Drop>(
    rt: &R,
    argument: usize,
    line: &mut [u8],
    is_right: J,
)
    requires { J.IsAlwaysCallable is_right }
{
    let mut space = [0; 16];
    if let Some((name, file)) = open_list(rt, argument, &mut space) {
        let tally = compare(file, line, is_right, |n| print(rt, name, "wrong line ", n));
        print(rt, name, "lines ", tally.lines);
        print(rt, name, "wrong ", tally.wrong);
    }
}

// Whether bytes are a pair, and a byte after it: the digits of the input, and of the answer.
fn is_pair<A: Fn(u64) -> u64>(bytes: &[u8], answer: &A, after: u8) -> bool
    requires { A.IsAlwaysCallable answer.now }
{
    let ([input, output], []) = bytes.as_chunks::<17>() else {
        return false;
    };
    let n = number(&input[..16]);
    spells(&input[..16], n)
        && input[16] == b' '
        && spells(&output[..16], answer(n))
        && output[16] == after
}

// Of the 64 numbers from this one on, those that end in the bits 11 begin a longer instruction and are left out.
fn is_packed(line: &[u8], first: u64) -> bool
    requires { first < 0x100_0000_0000 }
{
    let (answers, end) = line.as_chunks::<5>();
    let words = (first..first + 64).filter(|word| word % 4 != 3);
    answers
        .iter()
        .zip(words)
        .all(|(answer, word)| is_short(answer, word))
        && matches!(end, b"\n")
}

// Whether bytes are the five digits of a word that is an instruction of 2 bytes.
fn is_short(digits: &[u8], word: u64) -> bool {
    let answer = fetched(word);
    let short = answer % 0x10_0000;
    answer / 0x10_0000 == 0x32 && spells(digits, short)
}

// Whether a line is the pair of a 16-bit word, and then a number and what that load or store makes of it.
fn is_executed(line: &[u8]) -> bool {
    let Some((pair, moved)) = line.split_at_checked(34) else {
        return false;
    };
    is_pair(pair, &fetched, b' ') && is_moved(pair, moved)
}

fn is_moved(pair: &[u8], moved: &[u8]) -> bool {
    let Some(word) = pair.first_chunk::<16>() else {
        return false;
    };
    match isa_decoder::compressed(number(word)) {
        Decoded::Load { width, signed, .. } => is_pair(
            moved,
            &|n| isa_extension::extend(width, signed, n),
            b'\n',
        ),
        Decoded::Store { width, .. } => is_pair(moved, &|n| isa_extension::cut(width, n), b'\n'),
        Decoded::Neither => false,
    }
}

fn decoded(word: u64) -> u64 {
    of_decoded(isa_decoder::decode(word))
}

fn fetched(word: u64) -> u64 {
    of_trapped(isa_decoder::from_fetched((word % 0x1_0000_0000) as u32))
}

// An answer as a number: the kind (1 load, 2 store), the width in bytes, the sign and the register, a hex digit for each and
// two for the register. (No `From`: only the decoder's crate may write one for its types, and the digits are the lists' own.)
fn of_decoded(d: Decoded) -> u64
    ensures { result < 0x100000 }
{
    match d {
        Decoded::Load { width, signed, rd } => 0x1_0000
            + width.number() % 16 * 0x1000
            + u64::from(signed) * 0x100
            + (rd % 256) as u64,
        Decoded::Store { width, rs2 } => 0x2_0000
            + width.number() % 16 * 0x1000
            + (rs2 % 256) as u64,
        Decoded::Neither => 0,
    }
}

// Before those digits two more: 1 pseudo, 2 unfit, 3 an instruction; and its length.
fn of_trapped(t: Trapped) -> u64 {
    match t {
        Trapped::Absent => 0,
        Trapped::Pseudo => 0x100_0000,
        Trapped::Unfit => 0x200_0000,
        Trapped::Instruction { op, length } => 0x300_0000
            + length % 16 * 0x10_0000
            + of_decoded(op),
    }
}

fn print<R: Print>(rt: &R, name: &str, what: &str, n: u32) {
    let _ = println!(rt; "{name}: {what}{n}");
}
