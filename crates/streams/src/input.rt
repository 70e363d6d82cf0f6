// The input of a program: the file that its one argument names, or standard input if it has none.
// No contract can say which bytes are read: the standard library promises of a read how many it put into the buffer at most.
ghost use Rattle.std.specs.Prelude.{◌≤◌, ◌<◌, length};
ghost use Rattle.book.specs.Layout.{longest_book};
ghost use Rattle.streams.specs.Inputs.{Within, Reaches};

use crate::failure::said;
use std::env::{Env, FillError};
use std::fs::File;
use std::io;
use std::io::Read;

// One read to a place of the buffer and on: where the bytes end that it put there. If it failed, it is said why.
fn read_some(rt: &impl Eprint, from: &mut impl Read, buffer: &mut [u8], at: usize) -> Option<usize>
    requires { at ≤ length buffer.old }
    ensures { Reaches at result buffer.new }
{
    let got = said(rt, "cannot read the input", from.read(&mut buffer[at..]))?;
    Some(at + got)
}

// Reads until the input ends or the buffer is full. A read that fails is no end. The library's loops over `read` want a heap, or an input whose
// length is known before.
fn read_all(rt: &impl Eprint, from: &mut impl Read, buffer: &mut [u8]) -> Option<usize>
    ensures { Within result buffer.new }
{
    let mut end = 0;
    while end < buffer.len() {
        let after = read_some(rt, from, buffer, end)?;
        if after == end {
            break;
        }
        end = after;
    }
    Some(end)
}

// Whether the program was started with an argument of this number. Its own name has the number 0.
fn has_argument(rt: &impl Env, number: usize) -> bool {
    !matches!(rt.arg(number, &mut []), Err(FillError::NotPresent))
}

// A file name that cannot be opened.
fn bad_name(why: &'static str) -> io::Error {
    io::Error::new(io::ErrorKind::InvalidFilename, why)
}

// Opens the file that the argument names. The system knows no names of more bytes than fit here, and the standard library opens names of UTF-8
// alone.
fn open_named(rt: &HostRuntime) -> io::Result<File> {
    let mut path = [0u8; 4096];
    let n = rt
        .arg(1, &mut path)
        .map_err(|_| bad_name("File name too long"))?;
    let name = str::from_utf8(&path[..n]).map_err(|_| bad_name("File name not in UTF-8"))?;
    File::open(rt, name)
}

fn read_named(rt: &HostRuntime, buffer: &mut [u8]) -> Option<usize>
    ensures { Within result buffer.new }
{
    let mut file = said(rt, "cannot open the input", open_named(rt))?;
    read_all(rt, &mut file, buffer)
}

// Reads the input until it ends or the buffer is full, and answers how many bytes were put at the start of the buffer. If there is nothing, the
// read failed and that was said. With more than one argument it says how the program is used.
pub fn read_input(rt: &HostRuntime, usage: &[u8], buffer: &mut [u8]) -> Option<usize>
    ensures { Within result buffer.new }
{
    if !has_argument(rt, 1) {
        return read_all(rt, &mut rt.stdin(), buffer);
    }
    if has_argument(rt, 2) {
        let _ = rt.stderr().write_all(usage);
        return None;
    }
    read_named(rt, buffer)
}

// Reads a book: all of the input, or one byte more than a book may have at least, by which Open refuses it.
pub fn read_book(rt: &HostRuntime, usage: &[u8], buffer: &mut [u8]) -> Option<usize>
    requires { longest_book < length buffer.old }
    ensures { Within result buffer.new }
{
    read_input(rt, usage, buffer)
}
