//! Tries margins on the day file on standard input, each plan played against the actual needs of the file `needs.act` in the folder that it is
//! run in, and prints what each costs, misses and spills, or the refusal. Whose file it must be says `station.id` there.
//! What it prints is proved in the crates program_text and margin_text, from the bytes that were read.
#![tactic(auto)]

use program_text::Program;
use std::process::ExitCode;

fn main(rt: HostRuntime) -> ExitCode {
    program_text::run_between(&rt, Program::Margins, &mut rt.stdin(), &mut rt.stdout())
}
