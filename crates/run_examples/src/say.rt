// What the program writes.
use refusal::Refusal;
use std::io;

// The number that a line starts with.
pub fn number(rt: &impl Print, n: u64) -> io::Result<()> {
    print!(rt; "{n}")
}

// A word, eight digits wide.
pub fn word(rt: &impl Print, w: u32) -> io::Result<()> {
    print!(rt; " {w:08x}")
}

// A count of a record, written as a word.
pub fn count(rt: &impl Print, n: usize) -> io::Result<()> {
    print!(rt; " {n:08x}")
}

pub fn refused(rt: &impl Print, why: Refusal) -> io::Result<()> {
    print!(rt; " refused {}", why.number())
}

pub fn line_end(rt: &impl Print) -> io::Result<()> {
    println!(rt)
}

pub fn examples(rt: &impl Print, n: u64) -> io::Result<()> {
    println!(rt; "{n} examples")
}
