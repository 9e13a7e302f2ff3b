//! The tests of a reading on the file itself, before those on lent tables: the walk (10, 11, 12), whose file it is (20), the count of its periods (1).
#![tactic(auto)]

ghost use Rattle.std.specs.Prelude.{◌≡◌};
ghost use Rattle.day.specs.Refusals.{checked, first};
ghost use Rattle.day.specs.File.{has_stamp, is_expected, wrong_stamp};
ghost use Rattle.dayfile.specs.Answers.{file_tests};

use day::{Refusal, Stamp};
use dayfile::file::DayFile;
use dayfile::layout;

fn has_stamp(file: &[u8], stamp: Stamp) -> bool
    ensures { result ≡ has_stamp stamp file.now }
{
    layout::is_stamped(file) && layout::stamp(layout::body(file, 0)) == stamp
}

// Whether the file has the expected stamp; none has where nothing is expected.
fn is_expected(file: &[u8], expected: Option<Stamp>) -> bool
    ensures { result ≡ is_expected expected file.now }
{
    expected.is_some_and(|stamp| has_stamp(file, stamp))
}

// 20
fn stamp(file: &[u8], expected: Option<Stamp>) -> Result<(), Refusal>
    ensures { result ≡ checked (wrong_stamp expected file.now) }
{
    if is_expected(file, expected) {
        Ok(())
    } else {
        Err(Refusal::WrongStamp)
    }
}

// What is tested of a file itself: 10, 11, 12, then 20, then 1.
pub fn tests(file: DayFile, expected: Option<Stamp>) -> Result<(), Refusal>
    ensures { result ≡ checked (first (file_tests expected file.entry.bytes.now)) }
{
    file.walk()?;
    stamp(file.bytes, expected)?;
    checks::count(file.periods)
}
