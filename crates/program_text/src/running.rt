//! A program's run: its files read, their text written.
ghost use Rattle.std.specs.Prelude.{◌≡◌, OnOk, length};
ghost use Rattle.std.specs.Process.{exit_status};
ghost use Rattle.std.specs.Io.KnownBytes.{Appends};
ghost use Rattle.program_text.specs.Run.{Writes};

use crate::{Program, say_text_of};
use lines::Text;
use std::io;
use std::io::{Read, Write};
use std::process::ExitCode;
use std::rt::Files;
use thiserror::Error;

// Why a program stops: what it failed to read from or to write to.
#[derive(Debug, Drop, Error)]
enum Stopped {
    #[error("standard input: {0}")]
    Input(io::Error),
    #[error("standard output: {0}")]
    Output(io::Error),
}

// The bytes of the actual needs, which only `margins` reads.
fn actual_needs<'a, R: Files + Eprint>(rt: &R, program: Program, room: &'a mut [u8]) -> &'a [u8] {
    match program {
        Program::Dayplan => &[],
        Program::Margins => input::read_named(rt, b"needs.act", room),
    }
}

// Reads the files, each into room for a byte more than the longest that is accepted, and writes their text in one piece.
fn write_text<R: Files + Eprint, I: Read, O: Write>(
    rt: &R,
    program: Program,
    input: &mut I,
    output: &mut O,
) -> Result<(), Stopped>
    ensures { OnOk result (Writes program (I.remaining input.old) (I.remaining input.new) (O.contents output.old) (O.contents output.new)) }
{
    // Arrays: a heap's memory could run out, and a run would stop for one reason more.
    let mut file = [0u8; 1838];
    let n = input::read(input, &mut file).map_err(Stopped::Input)?;
    let mut needs = [0u8; 193];
    let needs = actual_needs(rt, program, &mut needs);
    let mut id = [0u8; 5];
    let id = input::read_named(rt, b"station.id", &mut id);
    let mut text = Text::new();
    say_text_of(program, &file[..n], needs, id, &mut text);
    output.write_all(text.as_bytes()).map_err(Stopped::Output)?;
    Ok(())
}

// Runs a program. What could not be read or written is said on standard error, and the status is not 0. I and O have names for the clause.
pub fn run_between<R: Files + Eprint, I: Read, O: Write>(
    rt: &R,
    program: Program,
    input: &mut I,
    output: &mut O,
) -> ExitCode
    ensures { exit_status result ≡ 0
        → Writes program (I.remaining input.old) (I.remaining input.new) (O.contents output.old) (O.contents output.new) }
{
    match write_text(rt, program, input, output) {
        Ok(()) => ExitCode::SUCCESS,
        Err(e) => {
            let _ = eprintln!(rt; "{e}");
            ExitCode::FAILURE
        }
    }
}

// Likewise; where R is written out, I and O need not be.
pub fn run<R: Files + Eprint>(
    rt: &R,
    program: Program,
    input: &mut impl Read,
    output: &mut impl Write,
) -> ExitCode {
    run_between(rt, program, input, output)
}
