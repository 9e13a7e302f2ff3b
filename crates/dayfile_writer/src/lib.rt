//! The writer: the file of a stamp and a day at the front of a lent slice.
//! What it does is `Writing` of the crate dayfile.
#![tactic(auto)]

ghost use Rattle.std.specs.Prelude.{◌≡◌, ◌∷◌, ◌++◌, ◌+◌, ◌*◌, ◌≤◌, not, length};
ghost use Rattle.std.proofs.lemmas.List.Edits.{sets};
ghost use Rattle.day.specs.Sums.{Term, at};
ghost use Rattle.day.specs.Day.{periods, max_periods};
ghost use Rattle.day.specs.File.{end_kind, both_zero, bytes2, charges_of, head_of, fields_of, kind_of, limit_of, records_of, file_of};
ghost use Rattle.checks.specs.Passed.{SameLengths, Readable};
ghost use Rattle.day.specs.Lent.{lent_day};
ghost use Rattle.dayfile.specs.Kinds.{byte_of};
ghost use Rattle.dayfile.specs.Answers.{with_file, Writing};
ghost use Rattle.dayfile.specs.Theorems.{record_bytes};

use day::{Day, Ends, Entries, Refusal, Stamp};
use dayfile::kind::Kind;
use dayfile::layout::NO_LIMIT;

// The kind of a period's record, by its store limit: only one below 65,535 is written.
fn kind_of(store: u16) -> Kind
    ensures { byte_of result ≡ kind_of store }
{
    if store < NO_LIMIT {
        Kind::Store
    } else {
        Kind::Period
    }
}

// How long the record is.
fn record_size(store: u16) -> usize
    ensures { Term (17 + length (limit_of store)) 19 result }
{
    1 + kind_of(store).body_length()
}

// A period's record, with its store limit in any case. Numbers stand most significant byte first.
fn period_record(p: Entries) -> [u8; 19]
    ensures { result ≡ kind_of p.store ∷ fields_of p.demand p.capacity p.setup p.unit p.holding ++ bytes2 p.store }
{
    let mut record = [0; 19];
    record[0] = u8::from(kind_of(p.store));
    record[1..3].copy_from_slice(&p.demand.to_be_bytes());
    record[3..5].copy_from_slice(&p.capacity.to_be_bytes());
    record[5..9].copy_from_slice(&p.setup.to_be_bytes());
    record[9..13].copy_from_slice(&p.unit.to_be_bytes());
    record[13..17].copy_from_slice(&p.holding.to_be_bytes());
    record[17..19].copy_from_slice(&p.store.to_be_bytes());
    record
}

// A record of the head: its kind and two numbers.
fn head_record(kind: Kind, first: u16, second: u16) -> [u8; 5]
    ensures { result ≡ byte_of kind ∷ bytes2 first ++ bytes2 second }
{
    let mut record = [0; 5];
    record[0] = u8::from(kind);
    record[1..3].copy_from_slice(&first.to_be_bytes());
    record[3..5].copy_from_slice(&second.to_be_bytes());
    record
}

// Whether charges are written: exactly if A or Z is above 0.
fn has_charges(ends: Ends) -> bool
    ensures { result ≡ not (both_zero ends.opening ends.closing) }
{
    ends.opening != 0 || ends.closing != 0
}

// How long the head is: 5 bytes for the stamp, and 5 for charges.
fn head_size(ends: Ends) -> usize
    ensures { Term (5 + length (charges_of ends.opening ends.closing)) 10 result }
{
    if has_charges(ends) { 10 } else { 5 }
}

// The end record.
fn end_record(n: u16) -> [u8; 3]
    ensures { result ≡ end_kind ∷ bytes2 n }
{
    let mut record = [0; 3];
    record[0] = u8::from(Kind::End);
    record[1..3].copy_from_slice(&n.to_be_bytes());
    record
}

// Copies bytes to the slice's front.
fn copy(bytes: &[u8], out: &mut [u8])
    requires { length bytes.now ≤ length out.old }
    ensures { out.new ≡ sets out.old 0 bytes.now }
{
    out[..bytes.len()].copy_from_slice(bytes);
}

// The charges, at the slice's front.
fn put_charges(out: &mut [u8], ends: Ends)
    requires { length (charges_of ends.opening ends.closing) ≤ length out.old }
    ensures { out.new ≡ sets out.old 0 (charges_of ends.opening ends.closing) }
{
    if has_charges(ends) {
        let record = head_record(Kind::Charges, ends.opening, ends.closing);
        copy(&record, out);
    }
}

// The head, at the slice's front; the stamp is always written.
fn put_head(out: &mut [u8], ends: Ends, stamp: Stamp)
    requires { length (head_of stamp ends.opening ends.closing) ≤ length out.old }
    ensures { out.new ≡ sets out.old 0 (head_of stamp ends.opening ends.closing) }
{
    let record = head_record(Kind::Stamp, stamp.station, stamp.date);
    copy(&record, out);
    put_charges(&mut out[5..], ends);
}

// How long the records of all periods are.
fn records_size(store: &[u16]) -> usize
    requires { length store.now ≤ max_periods }
    ensures { Term (record_bytes (at store.now) (length store.now)) (19 * max_periods) result }
{
    store.iter().map(|s| record_size(*s)).sum()
}

// The records of all periods, at the slice's front; where they end.
fn put_periods(day: Day, out: &mut [u8]) -> usize
    requires same_lengths { SameLengths (lent_day day) }
    requires room { record_bytes (at day.store.now) (periods (lent_day day)) ≤ length out.old }
    ensures end { result ≡ record_bytes (at day.entry.store.now) (periods (lent_day day.entry)) }
    ensures written { out.new ≡ sets out.old 0 (records_of (lent_day day.entry) (periods (lent_day day.entry))) }
{
    let mut at = 0;
    // By index: a period's entries stand in six tables, whose length is one fact.
    for k in 0..day.periods() {
        let p = day.entries(k);
        let record = period_record(p);
        let size = record_size(p.store);
        copy(&record[..size], &mut out[at..]);
        at += size;
    }
    at
}

// The file, at the slice's front.
fn put_file(day: Day, out: &mut [u8], stamp: Stamp)
    requires readable { Readable (lent_day day) }
    requires room { length (file_of stamp (lent_day day)) ≤ length out.old }
    ensures { out.new ≡ with_file stamp (lent_day day.entry) out.old }
{
    put_head(out, day.ends, stamp);
    let first = head_size(day.ends);
    let end = first + put_periods(day, &mut out[first..]);
    let record = end_record(day.periods() as u16);
    copy(&record, &mut out[end..]);
}

// Writes the file of a stamp and a day: 1, 2, 3, then 6. Accepted, the file stands at the slice's front, and its length is given.
pub fn write(day: Day, out: &mut [u8], stamp: Stamp) -> Result<usize, Refusal>
    ensures { Writing stamp (lent_day day.entry) out.old result out.new }
{
    checks::tables(day)?;
    let size = head_size(day.ends) + records_size(day.store) + 3;
    if out.len() < size {
        return Err(Refusal::FewSlots);
    }
    put_file(day, out, stamp);
    Ok(size)
}
