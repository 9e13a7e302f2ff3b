//! Writes the day files of examples/ by the project's own writer: the marked days M1 to M12, a day on which two plans cost the
//! same, one with charge at both ends, one with a low store, and a day of 96 periods; and `station.id`, which says
//! whose they are.
#![tactic(auto)]

use day::{Day, Ends, Stamp};
use dayfile::layout::NO_LIMIT;
use std::rt::Files;
use std::{array, fs, io};

// Whose files they are: station 17's, for 16 November 2026.
const STAMP: Stamp = Stamp {
    station: 17,
    date: 9816,
};

// No charge before the day and none after it.
const NO_ENDS: Ends = Ends {
    opening: 0,
    closing: 0,
};

// Bytes under a name in the current folder; its name and their count go to standard output. Where they can't be written, standard error says so.
fn put(rt: &(impl Files + Print + Eprint), name: &str, bytes: &[u8]) -> io::Result<()> {
    if let Err(e) = fs::write(rt, name, bytes) {
        return eprintln!(rt; "{name}: {e}");
    }
    let n = bytes.len();
    println!(rt; "{name} {n}")
}

// The file of a day. Arrays, here and below: with a heap's memory a run could fail for one reason more.
fn save(rt: &(impl Files + Print + Eprint), name: &str, day: Day) -> io::Result<()> {
    let mut file = [0; 1837];
    match dayfile_writer::write(day, &mut file, STAMP) {
        Ok(n) => put(rt, name, &file[..n]),
        Err(_) => println!(rt; "refused {name}"),
    }
}

// A day of one to three periods, with one start cost, unit cost and upkeep throughout, whose store limits nothing.
fn save_row(
    rt: &(impl Files + Print + Eprint),
    name: &str,
    demand: &[u16],
    capacity: &[u16],
    costs: [u32; 3],
    ends: Ends,
) -> io::Result<()> {
    let [setup, unit, holding] = costs;
    let n = demand.len();
    if 3 < n {
        return Ok(());
    }
    let setup = [setup; 3];
    let unit = [unit; 3];
    let holding = [holding; 3];
    let store = [NO_LIMIT; 3];
    let day = Day::new(
        demand,
        capacity,
        &setup[..n],
        &unit[..n],
        &holding[..n],
        &store[..n],
        ends,
    );
    save(rt, name, day)
}

// Needs and capacities of each; start cost, unit cost and upkeep.
fn save_marked(rt: &(impl Files + Print + Eprint)) -> io::Result<()> {
    let rows: [(&str, &[u16], &[u16], [u32; 3]); 13] = [
        ("m1.day", &[0], &[0], [5, 1, 1]),
        ("m2.day", &[1], &[1], [5, 2, 9]),
        ("m3.day", &[2], &[1], [5, 2, 9]),
        ("m4.day", &[2, 3], &[5, 5], [10, 1, 1]),
        ("m5.day", &[2, 3], &[5, 5], [10, 1, 4]),
        ("m6.day", &[2, 2], &[4, 4], [10, 1, 5]),
        ("m7.day", &[0, 4], &[3, 3], [10, 1, 1]),
        ("m8.day", &[1, 5], &[2, 3], [0, 1, 1]),
        ("m9.day", &[1, 4], &[2, 3], [0, 1, 1]),
        ("m10.day", &[3, 0], &[2, 9], [0, 1, 1]),
        ("m11.day", &[2, 2, 3], &[4, 4, 4], [6, 1, 1]),
        ("m12.day", &[0, 0], &[0, 0], [5, 1, 1]),
        ("tie.day", &[2, 2], &[4, 4], [8, 1, 2]),
    ];
    for (name, demand, capacity, costs) in rows {
        save_row(rt, name, demand, capacity, costs, NO_ENDS)?;
    }
    Ok(())
}

// M11's tables, with charge at both ends: the first period makes nothing, and the last one more than it needs.
fn save_ends(rt: &(impl Files + Print + Eprint)) -> io::Result<()> {
    let ends = Ends {
        opening: 3,
        closing: 2,
    };
    save_row(rt, "ends.day", &[2, 2, 3], &[4, 4, 4], [6, 1, 1], ends)
}

// M11's tables, with a store that takes little before the last period: what the second needs, the first can't make.
fn save_store(rt: &(impl Files + Print + Eprint)) -> io::Result<()> {
    let day = Day::new(
        &[2, 2, 3],
        &[4, 4, 4],
        &[6, 6, 6],
        &[1, 1, 1],
        &[1, 1, 1],
        &[1, 1, NO_LIMIT],
        NO_ENDS,
    );
    save(rt, "store.day", day)
}

// The needs of quarter hours: 2 watt-hours each, 5 in a pass of half an hour every three hours.
fn passes() -> [u16; 96] {
    array::from_fn(|i| if i % 12 < 2 { 5 } else { 2 })
}

// Fuel is dearer in the cold of the night, which is the first seven hours.
fn fuel() -> [u32; 96] {
    array::from_fn(|i| if i < 28 { 1100 } else { 900 })
}

fn save_passes(rt: &(impl Files + Print + Eprint)) -> io::Result<()> {
    let demand = passes();
    let unit = fuel();
    let day = Day::new(
        &demand,
        &[12; 96],
        &[4000; 96],
        &unit,
        &[20; 96],
        &[NO_LIMIT; 96],
        NO_ENDS,
    );
    save(rt, "passes.day", day)
}

// Station and date, most significant byte first.
fn save_id(rt: &(impl Files + Print + Eprint)) -> io::Result<()> {
    let [a, b] = STAMP.station.to_be_bytes();
    let [c, d] = STAMP.date.to_be_bytes();
    put(rt, "station.id", &[a, b, c, d])
}

fn main(rt: HostRuntime) -> io::Result<()> {
    save_id(&rt)?;
    save_marked(&rt)?;
    save_ends(&rt)?;
    save_store(&rt)?;
    save_passes(&rt)
}
