// Writes and reads fill requests through the library and prints what became of each: runs of requests
// until no hole is left, of which that of 49 holes is one frame and that of 50 two; written requests in
// hexadecimal and read back; requests by their place, their length and their map; every fault of the writers
// and of the reader alone and in pairs; frames of every size and with every value of some bytes; holes that
// keep and break the rules; and holes by their index. Every byte of a target is A5 before it is lent, and
// the line of a fault ends in a sum of all of it.
#![tactic(auto)]

mod bases;
mod damages;
mod fills;
mod picks;
mod reads;
mod request_runs;
mod tables;

use program_tools::printer::Printer;
use std::io;

fn main(rt: HostRuntime) {
    // A printer answers no error.
    let _ = all(&Printer { rt: &rt });
}

// What the library writes and what it reads.
fn all(rt: &impl Print) -> io::Result<()> {
    request_runs::all(rt)?;
    reads::back(rt)?;
    fills::places(rt)?;
    fills::lengths(rt)?;
    fills::faults(rt)?;
    tables::sizes(rt)?;
    tables::values(rt)?;
    damages::faults(rt)?;
    damages::holes(rt)?;
    picks::all(rt)
}
