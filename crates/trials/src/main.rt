//! Tries every call of the library on a day, a plan or a file on those of standard input, and prints a line for each answer. What it reads is
//! the file stdin beside src/, which says how its lines are laid out; what it writes is compared with the file stdout.
#![tactic(auto)]

use std::io;
use trial_paths::paths;
use trial_text::days::{FixedTables, ends_of};
use trial_text::line::{Line, ROOM};

// The trials of a line that begins with five of a day's tables: demands; capacities; setup, unit and holding costs. After a '|' it has the day's
// ends and, after a '/' there, the sixth: store limits.
// From here on `rt`, `line` and `day` go side by side: where to print, what is asked, and of which day. A struct of the three would hold two borrows
// and a type parameter, and most trials would take it apart.
fn day(rt: &impl Print, line: Line<'_>) -> io::Result<()> {
    let tables = FixedTables::<ROOM>::of(line);
    let day = tables.day(ends_of(line));
    match line.kind {
        b"day" => {
            paths::all(rt, line, day)?;
            trial_plans::searched(rt, line, day)?;
            trial_files::write(rt, line, day)
        }
        b"weigh" | b"compare" => trial_plans::plans(rt, line, day),
        b"bounds" => trial_bounds::bounds(rt, line, day),
        b"big" => trial_big::call::lent(rt, line, day),
        b"play" => trial_play::play(rt, line, day),
        b"write" => trial_files::write(rt, line, day),
        _ => paths::lent(rt, line, day),
    }
}

// A line: the kind of trial, its name, and fields. An empty line, and one that begins with '#' or '|', says nothing.
fn trial(rt: &impl Print, text: &[u8]) -> io::Result<()> {
    if let None | Some(b'#' | b'|') = text.first() {
        return Ok(());
    }
    let line = Line::whole(text);
    match line.kind {
        b"file" => trial_files::file(rt, line),
        b"made-up" => trial_paths::tiny::made_up(rt, line),
        b"made-up-big" => trial_big::tiny::made_up(rt, text),
        b"made-up-play" => trial_play::made_up(rt, text),
        _ => day(rt, Line::of_bytes(text)),
    }
}

// The first 65,536 bytes of standard input, since nothing here takes a heap; what comes after them is not read.
fn main(rt: HostRuntime) -> io::Result<()> {
    let mut bytes = [0; 65536];
    let n = input::read(&mut rt.reader(), &mut bytes)?;
    for line in bytes[..n].split(|byte| *byte == b'\n') {
        trial(&rt, line)?;
    }
    Ok(())
}
