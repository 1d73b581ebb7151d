//! Reads a bound and a book from standard input, and prints what there is to search, or the fault.
#![tactic(auto)]

use listing::{MOST_INPUT, summarize};
use std::io;
use std::io::Read;

fn main(rt: HostRuntime) -> io::Result<()> {
    let mut input = Vec::new(rt.alloc());
    // `as` is proved to lose nothing; `try_from` would add a way to fail.
    rt.stdin().take(MOST_INPUT as u64).read_to_end(&mut input)?;
    match summarize(input) {
        Ok(summary) => println!(rt; "{summary}"),
        Err(fault) => println!(rt; "{fault}"),
    }
}
