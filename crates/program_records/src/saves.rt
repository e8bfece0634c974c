// Receptions saved and loaded again: the worked one of the paper, also with every fault of the length and
// of the lent space, and those of 13 lengths with six patterns.
use crate::answers::Bytes;
use crate::loads;
use crate::spaces::{BUFFER, Held, Lent, MAP, Pattern, Space, TARGET};
use program_tools::made;
use program_tools::show::Refused;
use reception::{File, Reception};
use std::io;

// The lengths of files: those on both sides of the limits of a map byte, of a length's low byte and of all.
const LENGTHS: [u32; 13] = [1, 7, 8, 9, 15, 16, 17, 20, 255, 256, 257, 32767, 32768];

// How much of a space is lent: all of it, all but one byte, or nothing.
#[derive(Clone, Copy, Debug, PartialEq, Eq)]
enum Part {
    Exact,
    Short,
    Empty,
}

impl Part {
    const ALL: [Part; 3] = [Part::Exact, Part::Short, Part::Empty];

    // The part of a size.
    fn of(self, size: u32) -> u32 {
        match self {
            Part::Exact => size,
            Part::Short => size.saturating_sub(1),
            Part::Empty => 0,
        }
    }
}

// The lines of the worked reception with four lengths, of which 20 is right, each with a map, a buffer and a
// target that are exact, short by one, and empty. Space for length 0 is that for 20.
pub(crate) fn faults(rt: &impl Print) -> io::Result<()> {
    for length in [20, 0, 32769, 65556] {
        let worked = Held {
            file: File { number: 7, length },
            pattern: Pattern::Worked,
            set: true,
        };
        let exact = Lent::of(if length == 0 { 20 } else { length }, 0);
        for map in Part::ALL {
            short(rt, worked, exact, map)?;
        }
    }
    Ok(())
}

// The lines of a reception with a part of its map, and of its buffer and its target the three parts.
fn short(rt: &impl Print, h: Held, exact: Lent, map: Part) -> io::Result<()> {
    for buffer in Part::ALL {
        for target in Part::ALL {
            let lent = Lent {
                map: map.of(exact.map),
                buffer: buffer.of(exact.buffer),
                target: target.of(exact.target),
            };
            saved(rt, h, lent)?;
        }
    }
    Ok(())
}

// The lines of 13 lengths with six patterns, and spare bits set and clear in turn. All space is longer by five.
pub(crate) fn rounds(rt: &impl Print) -> io::Result<()> {
    for (row, length) in (0..).zip(LENGTHS) {
        for pattern in Pattern::ALL {
            let h = round(row, length, pattern);
            saved(rt, h, Lent::of(length, 5))?;
        }
    }
    Ok(())
}

// The reception of a length, which stands in a row of the list, and a pattern; each has a number of its own.
fn round(row: u8, length: u32, pattern: Pattern) -> Held {
    let c = u32::from(row) * 6 + pattern as u32;
    Held {
        file: File {
            number: c.wrapping_mul(54321001),
            length,
        },
        pattern,
        set: row % 2 != pattern as u8 % 2,
    }
}

// The line of a reception that is saved from and into lent space.
fn saved(rt: &impl Print, h: Held, lent: Lent) -> io::Result<()> {
    let mut map = [0; MAP];
    let mut buffer = [0; BUFFER];
    let mut space = [0; TARGET];
    let map = h.map(&mut map, lent.map);
    let buffer = h.buffer(&mut buffer, lent.buffer);
    let target = Space::Target.rubbish(&mut space, lent.target);
    let file = h.file;
    print!(rt;
        "save {} pattern {}, target {}",
        file.length, h.pattern, lent.target
    )?;
    print!(rt; ", map{}, buffer{}", Bytes(map), Bytes(buffer))?;
    match record::save(Reception { file, map, buffer }, target) {
        Ok(size) => written(rt, file.length, size, &space, lent.target),
        Err(reason) => {
            let kept = Space::Target.is_kept(target, 0);
            println!(rt; ": {} unchanged {}", Refused(reason), u8::from(kept))
        }
    }
}

// The rest of a line, of a record of a size that was written into a space of which so many bytes are the target: its bytes,
// whether what lies behind it in the target is unchanged, and how it is loaded into space that is longer by three, with one
// byte fewer and with one byte more.
fn written(rt: &impl Print, length: u32, size: usize, space: &[u8], target: u32) -> io::Result<()> {
    let kept = Space::Target.is_kept(made::first(space, target as usize), size);
    print!(rt; ": size {size} record{}", Bytes(made::first(space, size)))?;
    print!(rt; " unchanged {}", u8::from(kept))?;
    let lent = Lent::of(length, 3);
    for n in [size, size.saturating_sub(1), size.saturating_add(1)] {
        loads::loaded(rt, made::first(space, n), lent.map, lent.buffer)?;
    }
    println!(rt)
}
