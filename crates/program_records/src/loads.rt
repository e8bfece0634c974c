// A record loaded into lent space full of rubbish, and the rest of a line about it.
use crate::answers::{Bytes, Said};
use crate::spaces::{BUFFER, MAP, Space, TARGET};
use program_tools::made;
use reception::{File, Reception};
use std::io;

// The sizes of a map and a buffer for a file of 20 bytes: longer, exact, with a map short by one byte, with a
// buffer short by one byte, and empty.
const SPACES: [(u32, u32); 5] = [(6, 23), (3, 20), (2, 20), (3, 19), (0, 0)];

// The rest of a line for a record: what it says, and what became of loading it into space of five sizes.
pub(crate) fn tried(rt: &impl Print, record: &[u8]) -> io::Result<()> {
    print!(rt; ": read {}", Said(record::read_record(record)))?;
    for (map, buffer) in SPACES {
        loaded(rt, record, map, buffer)?;
    }
    println!(rt)
}

// What became of loading a record into lent space, a map of m bytes and a buffer of n: the answer, and what
// it left.
pub(crate) fn loaded(rt: &impl Print, record: &[u8], m: u32, n: u32) -> io::Result<()> {
    let mut map = [0; MAP];
    let mut buffer = [0; BUFFER];
    let map = Space::Map.rubbish(&mut map, m);
    let buffer = Space::Buffer.rubbish(&mut buffer, n);
    let loaded = record::load(record, map, buffer);
    print!(rt; "; into {m} and {n} {}", Said(loaded))?;
    match loaded {
        Ok(file) => accepted(rt, record, file, map, buffer),
        Err(_) => rest(rt, map, 0, buffer, 0),
    }
}

// Whether a map and a buffer are unchanged from two places on.
fn rest(rt: &impl Print, map: &[u8], from: usize, buffer: &[u8], at: usize) -> io::Result<()> {
    let kept = Space::Map.is_kept(map, from) && Space::Buffer.is_kept(buffer, at);
    print!(rt; " unchanged {}", u8::from(kept))
}

// What became of the space of an accepted record: the map and the buffer, whether what lies beyond is
// unchanged, and the record that is saved from them, as many bytes of it as there were.
fn accepted(
    rt: &impl Print,
    record: &[u8],
    file: File,
    map: &[u8],
    buffer: &[u8],
) -> io::Result<()> {
    let size = made::map_size(file.length);
    let length = file.length as usize;
    print!(rt; " map{}", Bytes(made::first(map, size)))?;
    print!(rt; " buffer{}", Bytes(made::first(buffer, length)))?;
    rest(rt, map, size, buffer, length)?;
    let mut target = [0; TARGET];
    let target = made::lent(&mut target, record.len());
    let _ = record::save(Reception { file, map, buffer }, target);
    print!(rt; " again{}", Bytes(target))
}
