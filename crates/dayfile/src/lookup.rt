// The body of a numbered period record, and the refusal of such a lookup.
ghost use Rattle.std.specs.Prelude.{◌≡◌};
ghost use Rattle.day.specs.Refusals.{checked};
ghost use Rattle.day.specs.Figures.{Checks, figures_by, refused_with};
ghost use Rattle.day.specs.File.{no_such_period};
ghost use Rattle.dayfile.specs.Answers.{bad_lookup, lookup_figures, part_values, Finds, HandsOut, Lookup};

use crate::file::DayFile;
use crate::layout;
use day::Refusal;

// Where a part of a file lies: its first byte, counted from 0, and how many they are.
#[derive(Clone, Copy)]
pub struct Part {
    pub first: usize,
    pub size: usize,
}

// 13
fn number(n: usize, period: usize) -> Result<(), Refusal>
    ensures { result ≡ checked (no_such_period n period) }
{
    if period == 0 || n < period {
        return Err(Refusal::NoSuchPeriod);
    }
    Ok(())
}

// 10, 11, 12, then 1, then 13
fn tests(file: DayFile, period: usize) -> Result<(), Refusal>
    ensures { result ≡ checked (bad_lookup file.entry.bytes.now period) }
{
    file.walk()?;
    checks::count(file.periods)?;
    number(file.periods, period)
}

// Why a lookup is refused, or that it is not.
pub fn check(file: &[u8], period: usize) -> Result<(), Refusal>
    ensures { Checks (bad_lookup file.now period) result }
{
    tests(DayFile::new(file), period)
}

// Where the record of `period`, counted from 1, begins.
fn record(file: &[u8], period: usize) -> Result<usize, Refusal>
    ensures { Finds file.now period result }
{
    check(file, period)?;
    Ok(layout::record_at(file, period - 1))
}

// Where its body lies in the file.
pub fn place(file: &[u8], period: usize) -> Result<Part, Refusal>
    ensures { figures_by part_values refused_with result ≡ lookup_figures file.now period }
{
    let at = record(file, period)?;
    Ok(Part {
        first: at + 1,
        size: layout::body(file, at).len(),
    })
}

// The body itself: that very part of the file's bytes.
pub fn find(file: &[u8], period: usize) -> Result<&[u8], Refusal>
    ensures { Lookup file.entry period result }
{
    let at = record(file, period)?;
    Ok(layout::body(file, at))
}

// Likewise; an empty part where `check` refuses. It stays beside `find`, since it is public and its promise stands.
pub fn body(file: &[u8], period: usize) -> &[u8]
    ensures { HandsOut file.entry period result }
{
    find(file, period).unwrap_or(&file[0..0])
}
