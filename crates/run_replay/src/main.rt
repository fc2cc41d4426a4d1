// Replays two files of stored answers (README.md): works each row out anew, and prints where they differ.
#![tactic(auto)]

mod tally;
mod tell;

ghost use Rattle.std.specs.Prelude.{◌≡◌, slice_index};
ghost use Rattle.run_replay.specs.Tally.{tallied, row_kind, differing};

use replay_rows::kind::RowKind;
use replay_rows::{part, place};
use std::io::{ErrorKind, Read};
use std::rt::Files;
use std::{fs, io};
use tally::Tally;

// Fills a buffer, and answers whether the file went on for so long.
fn read_full(file: &mut impl Read, buffer: &mut [u8]) -> io::Result<bool> {
    match file.read_exact(buffer) {
        Ok(()) => Ok(true),
        Err(error) if error.kind() == ErrorKind::UnexpectedEof => Ok(false),
        Err(error) => Err(error),
    }
}

// Reads a word; 0 where the file has ended.
fn read_word(file: &mut impl Read) -> io::Result<u32> {
    let mut bytes = [0u8; 4];
    read_full(file, &mut bytes)?;
    Ok(words::word(bytes[0], bytes[1], bytes[2], bytes[3]))
}

// Compares a row with what we make of it. It is counted also where what is told of it cannot be printed.
#[tactic(auto, unfolding(crate::specs::Tally::differing))]
fn compare(rt: &impl Print, number: u64, row: &[u32; 1680], tally: &mut Tally) -> io::Result<()>
    ensures { (tally.new.rows ≡ tallied (row_kind (slice_index row.now 0)) tally.old.rows)
        × (tally.new.differ ≡ differing row.now tally.old.differ) }
{
    let at = replay_worked::difference(row);
    let kind = RowKind::from_word(row[place::KIND]);
    let same = tally::is_same(kind, at);
    let told = if same {
        Ok(())
    } else {
        tell::difference(rt, number, kind, at)
    };
    tally.note(kind, same);
    told
}

// Reads a row: how many words are stored, and they; the others are 0. One that is too long, or that the file ends within,
// counts as malformed, and none is read after it.
fn replay_row(
    rt: &impl Print,
    file: &mut impl Read,
    number: u64,
    tally: &mut Tally,
) -> io::Result<bool> {
    let count = words::wide(read_word(file)?);
    let mut bytes = [0u8; 6720];
    if count > 1680 {
        tally.note(None, false);
        return Ok(false);
    }
    let size = 4 * count;
    if !read_full(file, &mut bytes[..size])? {
        tally.note(None, false);
        return Ok(false);
    }
    let row = part::words_of(&bytes);
    compare(rt, number, &row, tally)?;
    Ok(true)
}

fn replay_rows(
    rt: &impl Print,
    file: &mut impl Read,
    count: u32,
    tally: &mut Tally,
) -> io::Result<()> {
    for number in 0..count {
        if !replay_row(rt, file, number as u64, tally)? {
            break;
        }
    }
    Ok(())
}

// A file that goes on after its last row has a malformed one.
fn end(file: &mut impl Read, tally: &mut Tally) -> io::Result<()> {
    let mut bytes = [0u8; 1];
    if read_full(file, &mut bytes)? {
        tally.note(None, false);
    }
    Ok(())
}

// Prints the file's name, a line for each of its rows that differs, a line for each kind of row, and the totals.
fn replay<R: Files + Print + Eprint>(rt: &R, path: &str) -> io::Result<()> {
    tell::file(rt, path)?;
    let mut file = match fs::open(rt, path) {
        Ok(file) => file,
        Err(error) => return tell::unopened(rt, path, error),
    };
    let mut tally = Tally::new();
    let count = read_word(&mut file)?;
    replay_rows(rt, &mut file, count, &mut tally)?;
    end(&mut file, &mut tally)?;
    tell::kinds(rt, &tally)?;
    tell::counts(rt, tally::sum(&tally.rows), tally::sum(&tally.differ))
}

fn main(rt: HostRuntime) -> io::Result<()> {
    replay(&rt, "answers.bin")?;
    replay(&rt, "damaged.bin")
}
