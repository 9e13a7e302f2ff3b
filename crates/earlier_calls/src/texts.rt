//! The texts of the programs, each in a place of its own; a run that names no types of input and output.
use day::{Day, Ends, Refusal, Stamp};
use lines::Text;
use program_text::Program;

const PLAN: &str =
    "periods 3 cost 37 starts 1\n1 made 5 left 3\n2 made 0 left 3\n3 made 0 left 0\n";

// To start costs 20, a unit 1, a unit held from a period to the next 2: all made in period 1 costs 20 + 5 + 12, each where it is needed 40 + 5.
pub fn three() -> Day<'static> {
    Day::new(
        &[2, 0, 3],
        &[5, 0, 5],
        &[20, 20, 20],
        &[1, 1, 1],
        &[1, 1, 1],
        &[65535, 65535, 65535],
        Ends {
            opening: 0,
            closing: 0,
        },
    )
}

// The text of the margins of a day that passes 1, 2 and 3.
fn margins_of(day: Day, file: &[u8]) -> Result<Text, Refusal> {
    checks::tables(day)?;
    Ok(margin_text::day_text(day, file))
}

#[test]
fn texts_of_a_day(rt: HostRuntime) {
    assert_eq!(rt;
        lines::refusal_line(Refusal::WrongEnd).as_str(),
        "refused 12 period 0\n"
    );
    assert_eq!(rt; plan_text::day_text(three()).as_str(), PLAN);
    let margins = margins_of(three(), &[0, 2, 0, 0, 0, 3]);
    let first = "margin 0 cost 37 missed 0 spilled 0\nmargin 1 ";
    assert!(rt; matches!(margins, Ok(text) if text.as_str().starts_with(first)));
    let refused = margins_of(three(), &[0, 2]);
    assert!(rt; matches!(refused, Ok(text) if text.as_str() == "refused 2 period 0\n"));
}

#[test]
fn texts_of_a_file(rt: HostRuntime) {
    let stamp = Stamp {
        station: 17,
        date: 9816,
    };
    let mut file = [0; 100];
    let written = dayfile_writer::write(three(), &mut file, stamp);
    assert!(rt; matches!(written, Ok(n) if n <= 100));
    let n = written.unwrap_or(0).min(100);
    let planned = program_text::text_of(Program::Dayplan, &file[..n], &[], &[0, 17, 38, 88]);
    assert_eq!(rt; planned.as_str(), PLAN);
    let another = program_text::text_of(Program::Margins, &file[..n], &[], &[0, 18, 38, 88]);
    assert!(rt; another.as_str().starts_with("refused "));
}

#[test]
fn a_run_of_no_bytes(rt: HostRuntime) {
    let mut input: &[u8] = &[];
    let mut room = [0; 40];
    let mut output: &mut [u8] = &mut room;
    program_text::run::<HostRuntime>(&rt, Program::Dayplan, &mut input, &mut output);
    let left = output.len();
    let refused = program_text::text_of(Program::Dayplan, &[], &[], &[]);
    assert_eq!(rt; &room[..40 - left.min(40)], refused.as_bytes());
}
