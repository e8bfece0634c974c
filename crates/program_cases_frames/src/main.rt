// Runs the worked cases of the rules on frames that are taken in and read through the station and prints a line for each:
// its name, the numbers that are expected, and those that the station gave (01, "Both sides of the line": what is not
// proved is run).
//
// The cases are the text on standard input, `stdin` beside `src/`: a line for each, with its name, the numbers
// of the call and what is expected, which were written from the rules and not worked out by the library.
#![tactic(auto)]

mod frames;
mod reading;
mod requests;
mod takes;

use program_tools::cases;
use program_tools::cases::{Case, Operation};
use program_tools::ending::ended;
use std::io;

fn main(rt: HostRuntime) -> io::Result<()> {
    ended(cases::run(&rt, &Station))
}

// The station, by which the cases are run.
struct Station;

impl Operation for Station {
    fn answer(&self, case: &Case) -> [u32; 4] {
        match case.operation() {
            1 => takes::taken(case),
            8 => requests::read(case),
            9 => requests::hole_read(case),
            10 => reading::piece_read(case),
            11 => reading::entry_read(case),
            13 => reading::entry_stations(case),
            14 => requests::stations_read(case),
            _ => reading::header_read(case),
        }
    }
}
