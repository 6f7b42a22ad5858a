// Files that a program's arguments name.
ghost use Rattle.std.specs.Prelude.{◌≤◌, length, IfSome};
ghost use Rattle.std.specs.Io.KnownBytes.{Consumes};

use std::env::Env;
use std::fs::{File, Files};
use std::io::Read;

// Opens the list that an argument names, and gives its name too.
pub fn open_list<'a, R: Env + Files + Eprint>(
    rt: &R,
    argument: usize,
    space: &'a mut [u8],
) -> Option<(&'a str, R::File)>
    ensures { IfSome result (λ list. length list.0.now ≤ length space.old) }
{
    let name = name_of(rt, argument, space);
    let file = open(rt, name)?;
    Some((name, file))
}

// The name that an argument gives, if there is one that fits. Else no name, and no file has none.
fn name_of<'a, R: Env>(rt: &R, argument: usize, space: &'a mut [u8]) -> &'a str
    ensures { length result.now ≤ length space.old }
{
    match rt.arg(argument, space) {
        Ok(n) => str::from_utf8(&space[..n]).unwrap_or(""),
        Err(_) => "",
    }
}

// The front of a file, as much as has room. A file that can't be opened is empty.
pub fn front_of<'a, R: Files + Eprint>(rt: &R, path: &str, space: &'a mut [u8]) -> &'a [u8]
    ensures { length result.now ≤ length space.old }
{
    match open(rt, path) {
        Some(mut file) => read_front(&mut file, space),
        None => &[],
    }
}

// Opens a file. What can't be opened is told on standard error.
fn open<R: Files + Eprint>(rt: &R, path: &str) -> Option<R::File> {
    match File::open(rt, path) {
        Ok(file) => Some(file),
        Err(e) => {
            let _ = eprintln!(rt; "{path}: {e}");
            None
        }
    }
}

// Reads until the bytes are full, the input ends or a read fails, and gives those that were read. A loop by hand, since a read gives
// as many as it likes, and the library's `read_exact` doesn't say how many there were.
pub fn read_front<'a, F: Read>(file: &mut F, space: &'a mut [u8]) -> &'a [u8]
    ensures room { length result.now ≤ length space.old }
    ensures bytes { Consumes (F.remaining file.old) (F.remaining file.new) result.now }
{
    let mut done: usize = 0;
    while done < space.len() {
        match file.read(&mut space[done..]) {
            Ok(n) if n > 0 => done += n,
            _ => break,
        }
    }
    &space[..done]
}
