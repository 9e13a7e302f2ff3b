//! The text that a program prints for a day file: the line of its refusal, or what the program says of its day.
#![tactic(auto)]

mod running;

ghost use Rattle.std.specs.Prelude.{◌≡◌, ◌≤◌, IfOk, IfErr};
ghost use Rattle.day.specs.Day.{max_periods};
ghost use Rattle.day.specs.Lent.{lent_day};
ghost use Rattle.checks.specs.Passed.{Limits};
ghost use Rattle.tables.specs.Longest.{held};
ghost use Rattle.lines.specs.Text.{refusal_line};
ghost use Rattle.program_text.specs.Text.{expected_in, Inputs, SaysDay, PrintedText};

use day::{Day, Ends, Refusal, Stamp};
use dayfile::layout;
use lines::Text;
pub use running::{run, run_between};
use tables::Tables;

// The programs that read a day file.
#[derive(Clone, Copy)]
pub enum Program {
    Dayplan,
    Margins,
}

// The stamp that the bytes of `station.id` hold; none where they are not as many as the body of kind 5 has.
fn expected(id: &[u8]) -> Option<Stamp>
    ensures { result ≡ expected_in id.now }
{
    if id.len() != 4 {
        return None;
    }
    Some(layout::stamp(id))
}

// Reads a file. One of more than 1,837 bytes is refused 12 before any other test.
fn read(file: &[u8], tables: &mut Tables, expected: Option<Stamp>) -> Result<(usize, Ends), Refusal>
    ensures read { Inputs expected file.now (held tables.old) result (held tables.new) }
    ensures few { IfOk result (λ p. p.0 ≤ max_periods) }
{
    if 1837 < file.len() {
        return Err(Refusal::WrongEnd);
    }
    dayfile_reader::read(
        file,
        &mut tables.demand,
        &mut tables.capacity,
        &mut tables.setup,
        &mut tables.unit,
        &mut tables.holding,
        &mut tables.store,
        expected,
    )
}

// What the program says of a day. By `match`, as the files are read in `running`: in specs/ too a program is a case of `SaysDay`, and a trait would state
// each case once more.
fn day_text(program: Program, day: Day, needs: &[u8], text: &mut Text)
    requires { Limits (lent_day day) }
    ensures { SaysDay program needs.now (lent_day day.entry) text.new.bytes }
{
    match program {
        Program::Dayplan => plan_text::say_day(day, text),
        Program::Margins => margin_text::say_day(day, needs, text),
    }
}

// The line of a file that is refused.
fn refused_text(answer: Result<(usize, Ends), Refusal>, text: &mut Text)
    ensures { IfErr answer (λ r. text.new.bytes ≡ refusal_line r) }
{
    if let Err(refusal) = answer {
        lines::say_refusal(refusal, text);
    }
}

// The text of a file; goes on only with an accepted one. `dayplan` needs no actual needs.
pub fn say_text_of(program: Program, file: &[u8], needs: &[u8], id: &[u8], text: &mut Text)
    ensures { PrintedText program file.now needs.now id.now text.new.bytes }
{
    let mut tables = Tables::new();
    let answer = read(file, &mut tables, expected(id));
    let Ok((n, ends)) = answer else {
        return refused_text(answer, text);
    };
    day_text(program, tables.day(n, ends), needs, text)
}

// Likewise, where there is room for a text of its own.
pub fn text_of(program: Program, file: &[u8], needs: &[u8], id: &[u8]) -> Text
    ensures { PrintedText program file.now needs.now id.now result.bytes }
{
    let mut text = Text::new();
    say_text_of(program, file, needs, id, &mut text);
    text
}
