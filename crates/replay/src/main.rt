// The event program: reads fields from standard input, carries them out on a formatted disk of fixed sizes, and prints a line for each.
#![tactic(auto)]

mod input; // the input in pieces
mod machine; // the tables, and one request carried out
mod whole; // the whole fields that have come, and their lines
mod run; // reading, and printing

use std::io;
use std::io::Input;

fn main(rt: HostRuntime) -> io::Result<()> {
    run::run(&rt, &mut rt.reader())
}
