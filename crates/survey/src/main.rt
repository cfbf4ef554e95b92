//! Reads lines that each name a field, and prints what it finds out of each.
#![tactic(auto)]

mod codes;
mod findings;

use findings::look_at;
use named::Storey;
use std::io;

fn answer(rt: &HostRuntime, line: &str) -> io::Result<()> {
    match line.parse::<Storey>() {
        Ok(field) => {
            let found = look_at(&field);
            println!(rt; "{line}: {found}")
        }
        Err(why) => println!(rt; "{line}: not understood: {why}"),
    }
}

fn main(rt: HostRuntime) -> io::Result<()> {
    for line in rt.lines(rt.alloc()) {
        answer(&rt, line?.as_str())?;
    }
    Ok(())
}
