//! Trials of day files: reader, lookup and writer.
#![tactic(auto)]

ghost use Rattle.std.specs.Prelude.{◌≡◌, ◌≤◌, ◌<◌, length};

use arrayvec::ArrayVec;
use day::{Day, Ends, Refusal, Stamp};
use std::io;
use trial_text::cells::{MARK, marked};
use trial_text::counts::Counts;
use trial_text::days::FixedTables;
use trial_text::line::{Line, amounts, digit, repeated_bytes};
use trial_text::show::{Charge, Kept, Refused, Stores, text};

// The longest file has 1,837 bytes; a line's has room for some more, and what comes after that is passed over.
type File = ArrayVec<u8, 1900>;

// The bytes of a field, in the room lent for them: words of hexadecimal digits, each as often as it says, and at most 98 times: a file has 97 records at
// most.
fn bytes<'a>(field: &[u8], file: &'a mut File) -> &'a mut [u8]
    ensures { length result.now ≤ 1900 }
{
    for word in field.split(|byte| *byte == b' ') {
        let (digits, times) = repeated_bytes(word);
        for _ in 0..times.min(98) {
            append(file, digits);
        }
    }
    file.as_mut_slice()
}

// Two digits a byte, as far as there is room.
fn append(file: &mut File, digits: &[u8]) {
    for pair in digits.chunks_exact(2) {
        if file.try_push(16 * digit(pair[0]) + digit(pair[1])).is_err() {
            return;
        }
    }
}

// The stamp of a station's own files: station 17, on 16 November 2026.
const OWN: Stamp = Stamp {
    station: 17,
    date: 9816,
};

// The stamp that the reader is to expect: the two numbers of field 3, or its own where the field is left out. Fewer or more are no stamp.
// Not by `codes::expected`, which takes a C program's numbers: there no number at all is no stamp either.
fn expected(line: Line<'_>) -> Option<Stamp> {
    let numbers: ArrayVec<u16, 3> = amounts(line.field_bytes(3));
    match numbers.as_slice() {
        [] => Some(OWN),
        [station, date] => Some(Stamp {
            station: *station,
            date: *date,
        }),
        _ => None,
    }
}

// The reader, on tables of its own.
fn read_into<const CELLS: usize>(
    file: &[u8],
    tables: &mut FixedTables<CELLS>,
    expected: Option<Stamp>,
) -> Result<(usize, Ends), Refusal> {
    dayfile_reader::read(
        file,
        tables.demand.as_mut_slice(),
        tables.capacity.as_mut_slice(),
        tables.setup.as_mut_slice(),
        tables.unit.as_mut_slice(),
        tables.holding.as_mut_slice(),
        tables.store.as_mut_slice(),
        expected,
    )
}

// How a file fares.
#[derive(Clone, Copy)]
enum Fare {
    // It is read, and written to the same bytes.
    Same,
    Refused(Refusal),
    // Anything else.
    Wrong,
}

// The number of the refusal, 0 where there is none, and 15, which is no file's refusal, for anything else.
// Not by `as u8`, as beside the other enums that are counted: a refusal's number is no variant's here.
impl From<Fare> for u8 {
    fn from(fare: Fare) -> u8 {
        match fare {
            Fare::Same => 0,
            Fare::Refused(refusal) => refusal.number(),
            Fare::Wrong => 15,
        }
    }
}

// How a file fares that is read as such a day.
fn rewritten(file: &[u8], day: Day<'_>) -> Fare {
    let mut out = [MARK; ROOM];
    match dayfile_writer::write(day, &mut out, OWN) {
        Ok(n) if out.get(..n) == Some(file) => Fare::Same,
        _ => Fare::Wrong,
    }
}

// How a file of two periods fares. Where it is refused the needs' cells are left as they were.
fn fare_of(file: &[u8]) -> Fare {
    let mut tables = FixedTables::<2>::marked(2);
    match read_into(file, &mut tables, Some(OWN)) {
        Err(refusal) if marked(tables.demand.as_slice()) => Fare::Refused(refusal),
        Ok((_, ends)) => rewritten(file, tables.day(ends)),
        Err(_) => Fare::Wrong,
    }
}

// The file cut at each length. By number: a turn takes the first n bytes, and no single one.
fn cut(file: &[u8]) -> Counts {
    let mut counts = Counts::new();
    for n in 0..file.len() {
        counts.count(fare_of(&file[..n]));
    }
    counts
}

// With every value at one place, which is then as it was.
fn change_at(file: &mut [u8], at: usize, counts: &mut Counts)
    requires { at < length file.old }
    ensures { length file.new ≡ length file.old }
{
    let was = file[at];
    for value in 0..=u8::MAX {
        file[at] = value;
        counts.count(fare_of(file));
    }
    file[at] = was;
}

// With every value at each place. By index: a turn writes at one place, and reads the whole file.
fn change(file: &mut [u8]) -> Counts
    ensures { length file.new ≡ length file.old }
{
    let mut counts = Counts::new();
    for at in 0..file.len() {
        change_at(file, at, &mut counts);
    }
    counts
}

// The reader, with so many cells in each table, at most two more than the longest day needs, and the stamp that it expects.
fn read(rt: &impl Print, file: &[u8], cells: usize, expected: Option<Stamp>) -> io::Result<()> {
    let mut tables = FixedTables::<98>::marked(cells);
    match read_into(file, &mut tables, expected) {
        Err(refusal) => print!(rt; "{}", Refused(refusal)),
        Ok((n, ends)) => {
            let store = tables.store.get(..n).unwrap_or(&[]);
            print!(rt; " periods {n}{}{}", Charge(ends), Stores(store))
        }
    }
}

// How long the part is that a lookup hands out, with the demand and the store limit in it; no byte where it is refused, and why.
fn look(rt: &impl Print, file: &[u8], period: usize) -> io::Result<()> {
    match dayfile::lookup::find(file, period) {
        Err(refusal) => print!(rt; " bytes 0{}", Refused(refusal)),
        Ok(body) => {
            print!(rt; " bytes {}", body.len())?;
            if let Some(need) = body.get(1) {
                print!(rt; " need {need}")?;
            }
            if let Some([high, low]) = body.get(16..18) {
                print!(rt; " store {}", u16::from_be_bytes([*high, *low]))?;
            }
            Ok(())
        }
    }
}

// A trial of the file in field 1, by the first word of the name.
pub fn file<R: Print>(rt: &R, line: Line<'_>) -> io::Result<()> {
    let mut file = File::new();
    let file = bytes(line.field_bytes(1), &mut file);
    text(rt, line.name)?;
    match line.first_word_bytes() {
        b"read" => read(rt, file, line.amount(2), expected(line))?,
        b"look" => look(rt, file, line.amount(2))?,
        b"cut" => print!(rt; "{}", cut(file))?,
        _ => print!(rt; "{}", change(file))?,
    }
    println!(rt)
}

// The writer's room: five bytes more than the longest file.
const ROOM: usize = 1842;

// The writer, and what the reader says of the file that it made. There are as many bytes of room as field 6 says of a line that asks for it, all where
// that is more.
pub fn write<R: Print>(rt: &R, line: Line<'_>, day: Day<'_>) -> io::Result<()> {
    let room = if matches!(line.kind, b"write") {
        line.amount(6)
    } else {
        ROOM
    };
    let mut out = [MARK; ROOM];
    let out = &mut out[..room.min(ROOM)];
    text(rt, line.name)?;
    print!(rt; " file")?;
    match dayfile_writer::write(day, out, OWN) {
        Err(refusal) => {
            print!(rt; "{}{}", Refused(refusal), Kept(marked(out)))?;
        }
        Ok(n) => {
            let (file, later) = out.split_at(n.min(out.len()));
            print!(rt; " bytes {n}{}", Kept(marked(later)))?;
            read(rt, file, day.periods(), Some(OWN))?;
        }
    }
    println!(rt)
}
