// A file with the count of its period records, which is taken once, and the walk from its front to its end record, which opens every call on a file.
ghost use Rattle.std.specs.Prelude.{◌≡◌};
ghost use Rattle.day.specs.Refusals.{checked};
ghost use Rattle.day.specs.File.{periods_in, is_misplaced, bad_end, walk};
ghost use Rattle.dayfile.specs.Kinds.{byte_of};

use crate::kind::Kind;
use crate::layout;
use day::Refusal;

#[derive(Clone, Copy)]
pub struct DayFile<'a> {
    pub bytes: &'a [u8],
    pub periods: usize,
    ghost counted: { periods ≡ periods_in bytes.now },
}

// Whether the record of `kind` at `at` is a stamp that doesn't stand first, or charges that don't stand at `charges`.
fn is_misplaced(kind: Kind, at: usize, charges: usize) -> bool
    ensures { result ≡ is_misplaced (byte_of kind) at charges }
{
    match kind {
        Kind::Stamp => at != 0,
        Kind::Charges => at != charges,
        _ => false,
    }
}

impl<'a> DayFile<'a> {
    pub fn new(bytes: &'a [u8]) -> DayFile<'a>
        ensures { result.bytes ≡ bytes.entry }
    {
        DayFile {
            bytes,
            periods: layout::periods(bytes),
        }
    }

    // 10, 11, 12, at the record after the period records, which is to be the end record.
    fn end_record(self, at: usize) -> Result<(), Refusal>
        ensures { result ≡ checked (bad_end self.entry.bytes.now at self.entry.periods) }
    {
        let file = self.bytes;
        if file.len() <= at {
            return Err(Refusal::TruncatedFile);
        }
        let kind = Kind::try_from(file[at])?;
        if is_misplaced(kind, at, layout::charges_at(file)) {
            return Err(Refusal::WrongEnd);
        }
        let end = layout::next(file, at);
        if file.len() < end {
            return Err(Refusal::TruncatedFile);
        }
        let count = layout::number2(layout::body(file, at), 0);
        if kind != Kind::End || file.len() != end || usize::from(count) != self.periods {
            return Err(Refusal::WrongEnd);
        }
        Ok(())
    }

    // 10, 11, 12
    pub fn walk(self) -> Result<(), Refusal>
        ensures { result ≡ checked (walk self.entry.bytes.now) }
    {
        self.end_record(layout::record_at(self.bytes, self.periods))
    }
}
