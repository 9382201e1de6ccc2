// Prints the table of the 600-record pack, the start of each record, one number a line.
#![tactic(auto)]

use sectors::starts;
use std::io;

fn main(rt: HostRuntime) -> io::Result<()> {
    for start in starts() {
        println!(rt; "{start}")?;
    }
    Ok(())
}
