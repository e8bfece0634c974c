// Runs the worked cases of the rules on receptions, and on the records and requests that are made of them, through the
// station and prints a line for each: its name, the numbers that are expected, and those that the station gave (01, "Both
// sides of the line": what is not proved is run).
//
// The cases are the text on standard input, `stdin` beside `src/`: a line for each, with its name, the numbers
// of the call and what is expected, which were written from the rules and not worked out by the library.
#![tactic(auto)]

mod receptions;
mod records;
mod requests;

use program_tools::cases;
use program_tools::cases::{Case, Operation};
use program_tools::ending::ended;
use std::io;

fn main(rt: HostRuntime) -> io::Result<()> {
    ended(cases::run(&rt, &Station))
}

// The station, by which the cases are run.
struct Station;

impl Operation for Station {
    fn answer(&self, case: &Case) -> [u32; 4] {
        match case.operation() {
            0 => receptions::opened(case),
            2 => receptions::joined(case),
            3 => receptions::listed(case),
            4 => records::saved(case),
            5 => records::loaded(case),
            6 => requests::written(case),
            _ => requests::started(case),
        }
    }
}
