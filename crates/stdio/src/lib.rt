// For programs: a book's bytes from the file that the first argument names, or from standard input, the arguments after it, and a text to standard
// output. What fails is told on standard error, with its reason; what was read before is then no input.
// Of a file, standard input or the arguments no contract can say what is read; of a reader whose bytes are known, `fill` says that it was these.
#![tactic(auto)]

ghost use Rattle.std.specs.Prelude.{◌≡◌, length, IfOk, IfSome};
ghost use Rattle.stdio.specs.Read.{Filled, ReadAs, WrittenAs};

use std::env::{Env, FillError};
use std::io::{Error, ErrorKind, Print};
use std::{fs, io, str};

// The system's text of an error, without its number, into a buffer of zeros.
fn reason<'a>(why: &Error, text: &'a mut [u8]) -> &'a [u8] {
    let mut room = &mut text[..];
    let _ = io::Write::write_fmt(&mut room, why);
    let size = text.iter().position(|b| *b == 0).unwrap_or(text.len());
    let all = &text[..size];
    str::from_utf8(all)
        .ok()
        .and_then(|said| said.split_once(" (os error "))
        .map_or(all, |(said, _)| said.as_bytes())
}

// Reads until the input ends or the buffer is full. std reads a whole input only into a Vec, and `read_exact` refuses one that ends before.
fn fill<'b, S: io::Read>(source: &mut S, buf: &'b mut [u8]) -> io::Result<&'b [u8]>
    ensures { IfOk result (λ part. Filled (S.remaining source.old) (S.remaining source.new) (length buf.old) part.now) }
{
    let mut done = 0;
    while done < buf.len() {
        let more = source.read(&mut buf[done..])?;
        if more == 0 {
            break;
        }
        done += more;
    }
    Ok(&buf[..done])
}

// The C library's number of arguments that are too many.
const E2BIG: i32 = 7;

// And of a name that is too long.
const ENAMETOOLONG: i32 = 36;

// A program, by the runtime that it was given and the name that it is called by in messages.
#[derive(Drop)]
pub struct Program<'a> {
    pub rt: &'a HostRuntime,
    pub name: &'a [u8],
}

impl Program<'_> {
    // A line on standard error, in parts.
    fn tell(&self, parts: &[&[u8]]) {
        let stderr = self.rt.stderr();
        for part in parts {
            let _ = stderr.write_all(part);
        }
        let _ = stderr.write_all(b"\n");
    }

    // What was found, or none where that failed: a line then tells on what, and why.
    fn or_tell<T>(&self, subject: &[u8], found: io::Result<T>) -> Option<T>
        ensures { IfSome result (λ x. found ≡ Ok x) }
    {
        match found {
            Ok(x) => Some(x),
            Err(why) => {
                let mut text = [0u8; 128];
                self.tell(&[self.name, b": ", subject, b": ", reason(&why, &mut text)]);
                None
            }
        }
    }

    // Reads the file of this path.
    fn read_file<'b>(&self, path: &[u8], buf: &'b mut [u8]) -> Option<&'b [u8]>
        ensures { ReadAs result buf.old }
    {
        let text = str::from_utf8(path).map_err(|_| Error::new(
            ErrorKind::InvalidFilename,
            "Not UTF-8",
        ));
        let name = self.or_tell(path, text)?;
        let mut file = self.or_tell(path, fs::open(self.rt, name))?;
        self.or_tell(path, fill(&mut file, buf))
    }

    // Reads standard input.
    fn read_input<'b>(&self, buf: &'b mut [u8]) -> Option<&'b [u8]>
        ensures { ReadAs result buf.old }
    {
        self.or_tell(b"standard input", fill(&mut self.rt.stdin(), buf))
    }

    // Tells how the program is called.
    fn tell_usage(&self, arguments: &[u8]) {
        self.tell(&[b"usage: ", self.name, arguments]);
    }

    // The first argument, or none where there is none. None outside is a failure, which was told.
    fn first_argument<'p>(&self, room: &'p mut [u8]) -> Option<Option<&'p [u8]>> {
        match self.rt.arg(1, room) {
            Ok(size) => Some(Some(&room[..size])),
            Err(FillError::NotPresent) => Some(None),
            Err(FillError::TooLong) => {
                let too_long = Error::from_raw_os_error(ENAMETOOLONG);
                self.or_tell(b"the file's name", Err(too_long))
            }
        }
    }

    // Reads the file that the program's argument names, or standard input where there is none: the part of the buffer that was read into, which is
    // all of the input unless the buffer is full. None is a failure, which was told.
    pub fn read<'b>(&self, buf: &'b mut [u8]) -> Option<&'b [u8]>
        ensures { ReadAs result buf.old }
    {
        if !matches!(self.rt.arg(2, &mut []), Err(FillError::NotPresent)) {
            self.tell_usage(b" [FILE]");
            return None;
        }
        let mut path = [0u8; 4096];
        match self.first_argument(&mut path)? {
            Some(path) => self.read_file(path, buf),
            None => self.read_input(buf),
        }
    }

    // The same for a program that takes names after the file's, which has to be there: `-` is standard input.
    pub fn read_before_names<'b>(&self, buf: &'b mut [u8]) -> Option<&'b [u8]>
        ensures { ReadAs result buf.old }
    {
        let mut path = [0u8; 4096];
        match self.first_argument(&mut path)? {
            Some(b"-") => self.read_input(buf),
            Some(path) => self.read_file(path, buf),
            None => {
                self.tell_usage(b" FILE [NAME ..]");
                None
            }
        }
    }

    // The names after the file's, each ended by a zero byte, which no argument has: the part of the buffer that they take. None where it is too short
    // for all of them, which was told.
    pub fn names<'b>(&self, buf: &'b mut [u8]) -> Option<&'b [u8]>
        ensures { ReadAs result buf.old }
    {
        let mut done = 0;
        for i in 2..usize::MAX {
            match self.rt.arg(i, &mut buf[done..]) {
                Ok(size) if done + size < buf.len() => {
                    done += size;
                    buf[done] = 0;
                    done += 1;
                }
                Err(FillError::NotPresent) => break,
                _ => {
                    let too_many = Error::from_raw_os_error(E2BIG);
                    return self.or_tell(b"the names", Err(too_many));
                }
            }
        }
        Some(&buf[..done])
    }

    // Writes a text to standard output. Answers how many bytes are known to be written: all, or none where it failed, which was told. A count and
    // no `()`: std promises nothing of a write, so that of a `()` the contract could say nothing.
    pub fn write(&self, text: &[u8]) -> Option<usize>
        ensures { WrittenAs result text.now }
    {
        self.or_tell(b"standard output", self.rt.write_all(text))?;
        Some(text.len())
    }
}
