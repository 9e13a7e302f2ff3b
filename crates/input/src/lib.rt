//! Bytes read into lent buffers, from a reader or a file by its name. They are the first ones of a reader whose bytes are known; no contract can say
//! which ones the system gives. They are within the buffer.
#![tactic(auto)]

ghost use Rattle.std.specs.Prelude.{◌≤◌, ◌<◌, IfOk, length, take};
ghost use Rattle.std.specs.Io.KnownBytes.{Consumes, IsAtEnd};

use std::io::{ErrorKind, Read};
use std::rt::Files;
use std::{fs, io};

// Reads until the buffer is full or the input ends; input may come in pieces. Answers how many bytes were read, or why a read failed.
pub fn read<R: Read>(input: &mut R, room: &mut [u8]) -> io::Result<usize>
    ensures bound { IfOk result (λ n. n ≤ length room.old) }
    ensures bytes { IfOk result (λ n. Consumes (R.remaining input.old) (R.remaining input.new) (take n room.new)) }
    ensures end { IfOk result (λ n. n < length room.old → IsAtEnd (R.remaining input.new)) }
{
    let mut have = 0;
    // By hand: a turn goes on by as many bytes as the read brought.
    while have < room.len() {
        let n = input.read(&mut room[have..])?;
        if n == 0 {
            return Ok(have);
        }
        have += n;
    }
    Ok(have)
}

// Reads a file likewise. One that does not exist counts as one of no bytes, since it is refused as one of another length is.
fn read_file<R: Files>(rt: &R, name: &str, room: &mut [u8]) -> io::Result<usize>
    ensures { IfOk result (λ n. n ≤ length room.old) }
{
    match fs::open(rt, name) {
        Ok(mut file) => read(&mut file, room),
        Err(e) if e.kind() == ErrorKind::NotFound => Ok(0),
        Err(e) => Err(e),
    }
}

// The bytes of a file, in the room lent for them. One that can't be read counts as one that is not there, and standard error says so: also one whose
// name is no text, which std opens no file by. A name is bytes, since `&str` would ask more of those who call this.
pub fn read_named<'a, R: Files + Eprint>(rt: &R, name: &[u8], room: &'a mut [u8]) -> &'a [u8]
    ensures { length result.now ≤ length room.old }
{
    let Ok(text) = str::from_utf8(name) else {
        let _ = eprintln!(rt; "a file's name is not text");
        return &[];
    };
    match read_file(rt, text, room) {
        Ok(n) => &room[..n],
        Err(e) => {
            let _ = eprintln!(rt; "{text}: {e}");
            &[]
        }
    }
}
