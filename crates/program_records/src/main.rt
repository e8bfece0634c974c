// Saves and loads receptions through the library and prints what became of each: the worked one of the
// paper first, saved with every fault of the length and of the lent space; receptions of many lengths and
// patterns, saved, loaded back and saved again; records with every fault loaded into lent space of five
// sizes; and the maps that records hand out. Lent space is full of rubbish before it is used.
#![tactic(auto)]

mod answers;
mod changes;
mod loads;
mod maps;
mod saves;
mod spaces;

use program_tools::printer::Printer;
use std::io;

fn main(rt: HostRuntime) {
    // A printer answers no error.
    let _ = all(&Printer { rt: &rt });
}

// All lines, in their order.
fn all(rt: &impl Print) -> io::Result<()> {
    saves::faults(rt)?;
    saves::rounds(rt)?;
    changes::cuts(rt)?;
    changes::bytes(rt)?;
    changes::numbers(rt)?;
    changes::exchanged(rt)?;
    maps::all(rt)
}
