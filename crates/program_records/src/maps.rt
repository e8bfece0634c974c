// The map that a record hands out: of an accepted record, of a refused one, and by the answer of another.
use crate::answers::{Bytes, Said};
use crate::changes::WORKED;
use program_tools::made;
use reason::Reason;
use reception::File;
use std::io;

// First bytes of the worked record, and lengths on both sides of what fits: 26 bytes stand in it from the map on.
const OTHERS: [(usize, u32); 6] = [
    (43, 0),
    (43, 9),
    (43, 208),
    (43, 209),
    (43, 4294967295),
    (17, 1),
];

// The lines of the first bytes of the worked record, by their own answer, and by those of a record of file 7 with a length.
pub(crate) fn all(rt: &impl Print) -> io::Result<()> {
    for n in [43, 42, 0] {
        handed(rt, n, record::read_record(made::first(&WORKED, n)))?;
    }
    for (n, length) in OTHERS {
        handed(rt, n, Ok(File { number: 7, length }))?;
    }
    Ok(())
}

// The line of the first n bytes of the worked record: the answer, and the map by it.
fn handed(rt: &impl Print, n: usize, read: Result<File, Reason>) -> io::Result<()> {
    let map = record::map_of(made::first(&WORKED, n), read);
    println!(rt; "map of the first {n} {}:{}", Said(read), Bytes(map))
}
