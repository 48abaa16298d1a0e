// The counts, printed.
use crate::tally::Tally;
use std::io;

// The refusals that occurred, by number.
fn refusals(rt: &impl Print, word: &str, counts: &[u64; 100]) -> io::Result<()> {
    for (k, v) in counts.iter().enumerate() {
        if 0 < *v {
            print!(rt; "{word} that answered {k}")?;
            println!(rt; ": {v}")?;
        }
    }
    Ok(())
}

// What stands before the counts of the jobs that are named so.
pub fn title(rt: &impl Print, name: &str) -> io::Result<()> {
    println!(rt; "{name}:")
}

pub fn print(rt: &impl Print, t: &Tally) -> io::Result<()> {
    println!(rt; "jobs {}", t.jobs)?;
    println!(rt; "lists of turns {}", t.lists)?;
    println!(rt; "turns {}", t.turns)?;
    println!(rt; "differences {}", t.differences)?;
    refusals(rt, "fits", &t.fits)?;
    refusals(rt, "turns", &t.turned)
}
