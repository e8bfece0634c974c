// Reads file headers through the library and prints what became of each: every rule of a header
// broken and kept, bytes behind the end item, and cuts; and prints the bytes of items. Every header is
// that of figure 3.2 with the change that its line names. Items 0A and 0B are made right again unless
// they are what is changed, or the header is cut.
#![tactic(auto)]

mod answers;
mod data;
mod figure;
mod items;
mod lengths;
mod rules;

use program_tools::ending::ended;
use program_tools::printer::Printer;
use std::io;

fn main(rt: HostRuntime) -> io::Result<()> {
    ended(all(&Printer { rt: &rt }))
}

// All lines, in their order.
fn all(rt: &impl Print) -> io::Result<()> {
    println!(rt; "Rules of a header")?;
    rules::all(rt)?;
    println!(rt; "Bytes behind a header")?;
    lengths::longer(rt)?;
    println!(rt; "A header cut to its first bytes")?;
    lengths::cut(rt)?;
    println!(rt; "Items' bytes")?;
    data::all(rt)
}
