// What the program writes to standard output, and to standard error.
use refusal::Refusal;
use std::io;

// A refusal's number.
pub fn refused(rt: &impl Print, why: Refusal) -> io::Result<()> {
    println!(rt; "refused {}", why.number())
}

// The same of an answer; nothing where nothing is refused.
pub fn answer(rt: &impl Print, given: Result<(), Refusal>) -> io::Result<()> {
    match given {
        Ok(()) => Ok(()),
        Err(why) => refused(rt, why),
    }
}

// The first pixel of a row that two paintings colour differently.
pub fn differ(rt: &impl Print, x: usize, y: u8, lanes: u64) -> io::Result<()> {
    println!(rt; "lanes of {lanes} differ at {x} {y}")
}

// A map that was written, and whether its paintings agree.
pub fn map(rt: &impl Print, name: &str, agree: bool) -> io::Result<()> {
    if agree {
        println!(rt; "{name}: written, the same words plainly and in lanes of 4, 8 and 16")
    } else {
        println!(rt; "{name}: written, and lanes differ as said above")
    }
}

// A map that could not be written, and why, on standard error.
pub fn unwritten(rt: &impl Eprint, name: &str, error: io::Error) -> io::Result<()> {
    eprintln!(rt; "{name}: {error}")
}
