// What the library answers for a header.
use crate::figure;
use program_tools::show::Answer;
use std::io;

// The rest of a line for one header, read as that of the figure's file.
pub(crate) fn end(rt: &impl Print, header: &[u8]) -> io::Result<()> {
    println!(rt; ": {}", Answer(header::read_header(header, figure::NUMBER)))
}
