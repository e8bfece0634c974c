// Reads frames through the library, piece by piece and entry by entry, and prints what became of each:
// lengths on both sides of every limit, all flag bytes, cuts of a header and bytes behind it, every
// pair of faults in one frame, of which the first in the paper's order is answered, and what is handed
// out. Every frame is the sample of figure 3.2, or a piece of file 7, with the change that its line
// names. The check bytes are made right again unless they are what is changed; a header's items are
// made right again only where the header is longer.
#![tactic(auto)]

mod bases;
mod faults;
mod flags;
mod handed;
mod kinds;
mod lengths;
mod places;

use kinds::Kind;
use program_tools::ending::ended;
use program_tools::printer::Printer;
use std::io;

fn main(rt: HostRuntime) -> io::Result<()> {
    ended(all(&Printer { rt: &rt }))
}

// All lines, in their order.
fn all(rt: &impl Print) -> io::Result<()> {
    for kind in Kind::ALL {
        lengths::all(rt, kind)?;
    }
    places::all(rt)?;
    for kind in Kind::ALL {
        flags::all(rt, kind)?;
    }
    for kind in Kind::ALL {
        faults::pairs(rt, kind)?;
    }
    for kind in Kind::ALL {
        faults::heads(rt, kind)?;
    }
    handed::pieces(rt)?;
    handed::entries(rt)?;
    handed::fields(rt)
}
