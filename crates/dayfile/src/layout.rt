// Records by kind and length, the stamp, the head, and where the period records stand.
// A place goes beside the whole file: it may hold no record, so there is no struct of one, and places count from the file's first byte.
ghost use Rattle.std.specs.Prelude.{◌≡◌, ◌+◌, ◌≤◌, ◌<◌, length};
ghost use Rattle.day.specs.File.{next, number2, number4, is_record, is_period, is_charges, is_stamped, charges_at, head_end, record_at};
ghost use Rattle.day.specs.File.{periods_in, stamp_of};
ghost use Rattle.dayfile.specs.Answers.{BodyAt};
ghost use Rattle.dayfile.specs.Kinds.{byte_of};

use crate::kind::Kind;
use day::Stamp;

// A store limit that limits nothing: no record holds it. It is no Option, since it stands in a lent cell of 16 bits.
pub const NO_LIMIT: u16 = 65535;

// Numbers stand most significant byte first. Two functions: `from_be_bytes` is of no trait.
pub fn number2(body: &[u8], at: usize) -> u16
    requires { at + 1 < length body.now }
    ensures { result ≡ number2 body.now at }
{
    u16::from_be_bytes([body[at], body[at + 1]])
}

pub fn number4(body: &[u8], at: usize) -> u32
    requires { at + 3 < length body.now }
    ensures { result ≡ number4 body.now at }
{
    u32::from_be_bytes([body[at], body[at + 1], body[at + 2], body[at + 3]])
}

// Where the record after the one at `at` begins; one of no known kind has no body.
pub fn next(file: &[u8], at: usize) -> usize
    requires { at < length file.now }
    ensures { result ≡ next file.now at }
{
    at + 1 + Kind::try_from(file[at]).map_or(0, Kind::body_length)
}

// The body of the record at `at`: that very part of the file's bytes.
pub fn body(file: &[u8], at: usize) -> &[u8]
    requires inside { at < length file.now }
    requires whole { next file.now at ≤ length file.now }
    ensures { BodyAt file.entry at result }
{
    let start = at + 1;
    let end = next(file, at);
    &file[start..end]
}

// Whether a whole record of a kind begins at `at`.
fn is_record(file: &[u8], at: usize, kind: Kind) -> bool
    ensures { result ≡ is_record (byte_of kind) file.now at }
{
    at < file.len() && file[at] == u8::from(kind) && next(file, at) <= file.len()
}

// Whether a whole period record begins at `at`, with no store limit or with one that limits.
fn is_period(file: &[u8], at: usize) -> bool
    ensures { result ≡ is_period file.now at }
{
    is_record(file, at, Kind::Period)
        || is_record(file, at, Kind::Store) && number2(body(file, at), 16) < NO_LIMIT
}

// Whether a whole record of charges begins at `at`, not both of them 0.
pub fn is_charges(file: &[u8], at: usize) -> bool
    ensures { result ≡ is_charges file.now at }
{
    if !is_record(file, at, Kind::Charges) {
        return false;
    }
    let charges = body(file, at);
    number2(charges, 0) != 0 || number2(charges, 2) != 0
}

// Whether a whole stamp stands first.
pub fn is_stamped(file: &[u8]) -> bool
    ensures { result ≡ is_stamped file.now }
{
    is_record(file, 0, Kind::Stamp)
}

// The stamp that a body of kind 5 holds.
pub fn stamp(body: &[u8]) -> Stamp
    requires { 3 < length body.now }
    ensures { result ≡ stamp_of body.now }
{
    Stamp {
        station: number2(body, 0),
        date: number2(body, 2),
    }
}

// Where charges may stand: after the stamp, or first where there is none.
pub fn charges_at(file: &[u8]) -> usize
    ensures { result ≡ charges_at file.now }
{
    if is_stamped(file) { next(file, 0) } else { 0 }
}

// Where the head ends, and the period records begin.
pub fn head_end(file: &[u8]) -> usize
    ensures { result ≡ head_end file.now }
{
    let at = charges_at(file);
    if is_charges(file, at) {
        next(file, at)
    } else {
        at
    }
}

// How many period records follow the head. By `while`: `iter::successors` asks for the place after each before it gives that one, also where no record
// stands, so `is_period` would stand twice, in the closure too; and that the closure may be called at each place, and the walk ends, was not found.
pub fn periods(file: &[u8]) -> usize
    ensures { result ≡ periods_in file.now }
{
    let mut at = head_end(file);
    let mut n = 0;
    while is_period(file, at) {
        at = next(file, at);
        n += 1;
    }
    n
}

// Where record `i` after the head begins, counted from 0.
pub fn record_at(file: &[u8], i: usize) -> usize
    requires { i ≤ periods_in file.now }
    ensures { result ≡ record_at file.now i }
{
    let mut at = head_end(file);
    for _ in 0..i {
        at = next(file, at);
    }
    at
}
