// What a program reads and writes. Where that fails it says what and why on standard error, where it says nothing else; only of a reader that has closed the pipe it says nothing, since the status of the program says that.
#![tactic(auto)]

ghost use Rattle.std.specs.Prelude.{◌≡◌, ℕ, ◌-◌, ◌≤◌, ◌<◌, ◌<ℤ◌, pos, length, take, drop, Some, None, IsSome};
ghost use Rattle.std.specs.Process.{exit_status};
ghost use Rattle.std.specs.Io.KnownBytes.{Consumes, IsAtEnd};
ghost use Rattle.program_ends.specs.Ends.{more_bytes};
ghost use Rattle.program.specs.Told.{Handed, Moved, input_after, is_missing, is_reader_gone, status_after};

use program_ends::{is_absent, is_closed, more};
use std::fs::File;
use std::io::{ErrorKind, Input, Read};
use std::process::ExitCode;
use std::rt::Files;
use std::{io, str};

// Says what cannot be read or written, and why. Where standard error cannot be written either, nobody is left to tell.
fn tell(rt: &impl Eprint, what: &[u8], error: io::Error) {
    let _ = match str::from_utf8(what) {
        Ok(text) => eprintln!(rt; "{text}: {error}"),
        Err(_) => {
            let escaped = what.escape_ascii();
            eprintln!(rt; "{escaped}: {error}")
        }
    };
}

// What an input is after its last read.
fn input_after(answer: isize, done: usize) -> Option<usize>
    ensures { result ≡ input_after answer done }
{
    if answer < 0 {
        return None;
    }
    Some(done)
}

// One read, behind what was read before, which it leaves as it is: how many bytes it has put, or -1, and `fault` is then why.
fn read_on<R: Read>(
    input: &mut R,
    buf: &mut [u8],
    done: usize,
    fault: &mut Option<io::Error>,
) -> isize
    requires { done ≤ length buf.old }
    ensures moved { Moved (length buf.old - done) result }
    ensures buf_unchanged { take done buf.new ≡ take done buf.old }
    ensures bytes { Consumes (R.remaining input.old) (R.remaining input.new) (take (more_bytes result) (drop done buf.new)) }
    ensures end { result ≡ pos 0 → done < length buf.old → IsAtEnd (R.remaining input.new) }
    ensures reason { result <ℤ pos 0 → IsSome fault.new }
{
    match input.read(&mut buf[done..]) {
        Ok(n) => n as isize,
        Err(error) => {
            *fault = Some(error);
            -1
        }
    }
}

// Reads until the input ends or the buffer is full; `fault` is why it cannot be read. Of an input whose bytes are known, those are handed on that it gives, all of them or as many as the buffer takes.
fn read_all<R: Read>(input: &mut R, buf: &mut [u8], fault: &mut Option<io::Error>) -> Option<usize>
    ensures handed { Handed result buf.new }
    ensures bytes { (n : ℕ) → result ≡ Some n → Consumes (R.remaining input.old) (R.remaining input.new) (take n buf.new) }
    ensures end { (n : ℕ) → result ≡ Some n → n < length buf.old → IsAtEnd (R.remaining input.new) }
    ensures reason { result ≡ None → IsSome fault.new }
{
    let mut done = 0;
    while done < buf.len() {
        let answer = read_on(input, buf, done, fault);
        let k = more(answer);
        if k == 0 {
            return input_after(answer, done);
        }
        done += k;
    }
    Some(done)
}

// Reads an open input, and says so under its name where it cannot be read.
fn read_open<R: Read>(rt: &impl Eprint, input: &mut R, name: &[u8], buf: &mut [u8]) -> Option<usize>
    ensures handed { Handed result buf.new }
    ensures bytes { (n : ℕ) → result ≡ Some n → Consumes (R.remaining input.old) (R.remaining input.new) (take n buf.new) }
    ensures end { (n : ℕ) → result ≡ Some n → n < length buf.old → IsAtEnd (R.remaining input.new) }
{
    let mut fault = None;
    let given = read_all(input, buf, &mut fault);
    if let Some(error) = fault {
        tell(rt, name, error);
    }
    given
}

// Reads standard input, which the program calls by this name.
pub fn read_input(rt: &(impl Input + Eprint), name: &[u8], buf: &mut [u8]) -> Option<usize>
    ensures { Handed result buf.new }
{
    read_open(rt, &mut rt.reader(), name, buf)
}

// Opens a file by its name, which is text, as every path is.
fn open<R: Files>(rt: &R, name: &[u8]) -> io::Result<R::File> {
    match str::from_utf8(name) {
        Ok(path) => File::open(rt, path),
        Err(_) => Err(io::Error::from(ErrorKind::InvalidFilename)),
    }
}

// Whether an error says that there is no file of that name.
fn is_missing(error: &io::Error) -> bool
    ensures { result ≡ is_missing error.now }
{
    match error.raw_os_error() {
        Some(code) => is_absent(code),
        None => false,
    }
}

// Reads a file by its name; an absent one counts as empty.
pub fn read_file(rt: &(impl Files + Eprint), name: &[u8], buf: &mut [u8]) -> Option<usize>
    ensures { Handed result buf.new }
{
    let error = match open(rt, name) {
        Ok(mut file) => return read_open(rt, &mut file, name, buf),
        Err(error) => error,
    };
    if is_missing(&error) {
        return Some(0);
    }
    tell(rt, name, error);
    None
}

// Whether an error says that the reader has closed the pipe.
fn is_reader_gone(error: &io::Error) -> bool
    ensures { result ≡ is_reader_gone error.now }
{
    match error.raw_os_error() {
        Some(code) => is_closed(code),
        None => false,
    }
}

// Says that standard output cannot be written; a reader that has closed it wants no more, and nothing is said.
fn tell_output(rt: &impl Eprint, error: io::Error) {
    if !is_reader_gone(&error) {
        tell(rt, b"standard output", error);
    }
}

// Writes a part of an answer; where not all of it is written, that is told.
pub fn write(rt: &(impl Print + Eprint), part: &[u8]) -> io::Result<()> {
    let written = rt.write_all(part);
    if let Err(error) = written {
        tell_output(rt, error);
    }
    written
}

// Writes an answer, or its last part.
pub fn print(rt: &(impl Print + Eprint), answer: &[u8]) -> io::Result<()> {
    write(rt, answer)
}

// The status with which a program ends, by how its answer was written: 0 where all of it was; 141 where the reader has closed the pipe, as of a program that the signal of that ends; else 1.
pub fn status(written: io::Result<()>) -> ExitCode
    ensures { exit_status result ≡ status_after written }
{
    match written {
        Ok(()) => ExitCode::SUCCESS,
        Err(error) => {
            if is_reader_gone(&error) {
                ExitCode::from(141)
            } else {
                ExitCode::FAILURE
            }
        }
    }
}
