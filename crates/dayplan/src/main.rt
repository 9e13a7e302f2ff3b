//! Plans the day file on standard input by the full path, and prints the plan, or the refusal. Whose file it must be says
//! `station.id` in the folder that it is run in.
//! What it prints is proved in the crates program_text and plan_text, from the bytes that were read.
#![tactic(auto)]

use program_text::Program;
use std::process::ExitCode;

fn main(rt: HostRuntime) -> ExitCode {
    program_text::run_between(&rt, Program::Dayplan, &mut rt.stdin(), &mut rt.stdout())
}
