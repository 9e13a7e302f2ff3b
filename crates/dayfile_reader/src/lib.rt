//! The reader: the periods of a file into six lent tables. What it does is `Reading` of the crate dayfile.
#![tactic(auto)]

ghost use Rattle.std.specs.Prelude.{◌≡◌, ◌≤◌, length, slice_index};
ghost use Rattle.day.specs.Day.{tables_of, ends_of, max_periods};
ghost use Rattle.day.specs.Refusals.{checked, bad_value};
ghost use Rattle.day.specs.File.{body_length, body, limit_in, periods_in, day_in};
ghost use Rattle.day.specs.Lent.{tables_lent, tables_after};
ghost use Rattle.tables.specs.Filled.{Cells};
ghost use Rattle.dayfile.specs.Kinds.{byte_of};
ghost use Rattle.dayfile.specs.Layout.{WholePeriod};
ghost use Rattle.dayfile.specs.Answers.{with_day, bad_read, Reading};
ghost use Rattle.dayfile_reader.specs.Numbers.{numbers_in};

use day::{Ends, Entries, Refusal, Stamp};
use dayfile::file::DayFile;
use dayfile::kind::Kind;
use dayfile::layout;
use tables::Tables;

// The store limit of a period record: only kind 4 holds one.
fn store_limit(kind: Kind, body: &[u8]) -> u16
    requires { length body.now ≡ body_length (byte_of kind) }
    ensures { result ≡ limit_in (byte_of kind) body.now }
{
    match kind {
        Kind::Store => layout::number2(body, 16),
        _ => layout::NO_LIMIT,
    }
}

// The field decoder: the numbers that the body of a period record of this kind holds.
fn decode(kind: Kind, body: &[u8]) -> Entries
    requires long { 16 ≤ length body.now }
    requires length_by_kind { length body.now ≡ body_length (byte_of kind) }
    ensures { result ≡ numbers_in (byte_of kind) body.now }
{
    Entries {
        demand: layout::number2(body, 0),
        capacity: layout::number2(body, 2),
        setup: layout::number4(body, 4),
        unit: layout::number4(body, 8),
        holding: layout::number4(body, 12),
        store: store_limit(kind, body),
    }
}

// The numbers of the period record that begins at `at`.
fn period(file: &[u8], at: usize) -> Entries
    requires { WholePeriod file.now at }
    ensures { result ≡ numbers_in (slice_index file.now at) (body file.now at) }
{
    // A period's record is of a known kind.
    let kind = Kind::try_from(file[at]).unwrap();
    decode(kind, layout::body(file, at))
}

// A and Z, which the head holds; both 0 where it has no charges.
fn ends(file: &[u8]) -> Ends
    ensures { result ≡ ends_of (day_in file.now) }
{
    let at = layout::charges_at(file);
    if !layout::is_charges(file, at) {
        return Ends {
            opening: 0,
            closing: 0,
        };
    }
    let charges = layout::body(file, at);
    Ends {
        opening: layout::number2(charges, 0),
        closing: layout::number2(charges, 2),
    }
}

// The first cells of each table take the numbers of the file's periods; later cells stay. The tables come one by one, for the reason beside `tables::put`.
fn fill(
    file: DayFile,
    demand: &mut [u16],
    capacity: &mut [u16],
    setup: &mut [u32],
    unit: &mut [u32],
    holding: &mut [u32],
    store: &mut [u16],
)
    requires { Cells file.periods (tables_of demand.old capacity.old setup.old unit.old holding.old store.old) }
    ensures { tables_after demand capacity setup unit holding store
        ≡ with_day file.entry.bytes.now (tables_lent demand capacity setup unit holding store) }
{
    let mut at = layout::head_end(file.bytes);
    // By index: of cells that `iter_mut` lends to a `zip` nothing is known afterwards.
    for k in 0..file.periods {
        let p = period(file.bytes, at);
        tables::put(k, p, demand, capacity, setup, unit, holding, store);
        at = layout::next(file.bytes, at);
    }
}

// 3. The numbers are taken into tables of its own, so that the test speaks before a lent cell changes.
fn values(file: DayFile) -> Result<(), Refusal>
    requires { file.periods ≤ max_periods }
    ensures { result ≡ checked (bad_value (day_in file.entry.bytes.now)) }
{
    let mut tables = Tables::new();
    fill(
        file,
        &mut tables.demand,
        &mut tables.capacity,
        &mut tables.setup,
        &mut tables.unit,
        &mut tables.holding,
        &mut tables.store,
    );
    checks::values(tables.day(file.periods, ends(file.bytes)))
}

// The reader's tests in order, for tables of at least `cells` cells.
fn tests(file: DayFile, cells: usize, expected: Option<Stamp>) -> Result<(), Refusal>
    ensures { result ≡ checked (bad_read expected file.entry.bytes.now cells) }
{
    file_checks::tests(file, expected)?;
    if cells < file.periods {
        return Err(Refusal::FewSlots);
    }
    values(file)
}

// Reads a file: 10, 11, 12, then 20, 1, 6, 3. Accepted, the tables' first cells take the numbers of its periods, whose count is given,
// with the day's ends. The tables come one by one, as those of `fill`.
pub fn read(
    file: &[u8],
    demand: &mut [u16],
    capacity: &mut [u16],
    setup: &mut [u32],
    unit: &mut [u32],
    holding: &mut [u32],
    store: &mut [u16],
    expected: Option<Stamp>,
) -> Result<(usize, Ends), Refusal>
    ensures { Reading expected file.now (tables_lent demand capacity setup unit holding store) result
        (tables_after demand capacity setup unit holding store) }
{
    let file = DayFile::new(file);
    let cells = tables::shortest(
        demand.len(),
        capacity.len(),
        setup.len(),
        unit.len(),
        holding.len(),
        store.len(),
    );
    tests(file, cells, expected)?;
    fill(file, demand, capacity, setup, unit, holding, store);
    Ok((file.periods, ends(file.bytes)))
}
