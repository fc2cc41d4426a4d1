// What the program prints.
use crate::tally::{self, Tally};
use replay_rows::kind::RowKind;
use std::io;

// A file's name.
pub fn file(rt: &impl Print, path: &str) -> io::Result<()> {
    println!(rt; "{path}")
}

// A file that cannot be opened, on standard error.
pub fn unopened(rt: &impl Eprint, path: &str, error: io::Error) -> io::Result<()> {
    eprintln!(rt; "{path}: {error}")
}

// A kind's name. Malformed rows have no kind.
fn name(rt: &impl Print, kind: Option<RowKind>) -> io::Result<()> {
    match kind {
        Some(kind) => print!(rt; "{kind}: "),
        None => print!(rt; "malformed: "),
    }
}

// A row that differs, with the place of its first word that does.
pub fn difference(
    rt: &impl Print,
    number: u64,
    kind: Option<RowKind>,
    at: usize,
) -> io::Result<()> {
    name(rt, kind)?;
    println!(rt; "row {number} differs at word {at}")
}

// How many rows, and how many of them differ.
pub fn counts(rt: &impl Print, rows: u64, differ: u64) -> io::Result<()> {
    println!(rt; "{rows} rows, {differ} differ")
}

// The same of a kind.
fn counts_of(rt: &impl Print, kind: Option<RowKind>, tally: &Tally) -> io::Result<()> {
    let place = tally::place_of(kind);
    name(rt, kind)?;
    counts(rt, tally.rows[place], tally.differ[place])
}

// A line for each kind.
pub fn kinds(rt: &impl Print, tally: &Tally) -> io::Result<()> {
    for kind in RowKind::ALL {
        counts_of(rt, Some(kind), tally)?;
    }
    counts_of(rt, None, tally)
}
