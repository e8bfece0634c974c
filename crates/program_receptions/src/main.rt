// Runs receptions through the library and prints what became of each: openings and sequences of pieces,
// pieces and joins with every pair of faults, joins of patterns, and holes. A line says what was lent and
// asked, what was answered, and a sum of every lent byte that could change. Lent space is full of rubbish
// before it is used.
#![tactic(auto)]

mod all_holes;
mod answers;
mod faults;
mod join_faults;
mod joins;
mod lists;
mod opens;
mod patterns;
mod sequences;
mod spaces;
mod takes;

use program_tools::printer::Printer;
use std::io;

fn main(rt: HostRuntime) {
    // A printer answers no error.
    let _ = all(&Printer { rt: &rt });
}

// All lines, in their order.
fn all(rt: &impl Print) -> io::Result<()> {
    opens::all(rt)?;
    faults::all(rt)?;
    join_faults::all(rt)?;
    joins::all(rt)?;
    all_holes::all(rt)?;
    lists::all(rt)
}
