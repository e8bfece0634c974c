// Cases by name, and how their lines are read and run. A case is a line: a name, a colon, the numbers of its letters
// where they are not the usual ones, an equals sign, and what is expected: the reason, and behind it the other numbers
// where they are not the usual ones. A line without a colon is a heading. A line that ends with a semicolon has no name,
// and its numbers are the usual ones from then on. The letters:
//
//   n, l, m, b      number and length of the file; how many bytes of its map and of its buffer are lent
//   k, r, e         the first three bytes of its map, as one number; each other byte of it; where the bytes
//                   IJ stand in its buffer, beside ABCD at 0
//   q, u, v, w, j   the same of a second reception: number, length, map, buffer, first three bytes
//   y, f            bits that are turned over, and in which byte: of a piece's data, of the second buffer,
//                   of a record
//   a, h, s         first byte of a frame's destination, its SSID byte, that of the source; where a request is
//                   written, the first character and the two numbers, each with 256 times its bit 7
//   c, p, g, i      control, protocol, flags and file number of a frame
//   o, d            offset and number of data bytes of a piece
//   x               bits that are turned over in the check; from 65,536 on the check itself
//   z               how many bytes of the record are lent, or of the frame, there 0 for all and 1,000 for none
//   e, t            place that is asked, and how many bytes of the target are lent
//
// In a request that is read d is the length of the information, b the block size, (o, l) the first hole, (u, v)
// the second; in an entry d is the length of the information without the check.
ghost use Rattle.std.specs.Prelude.{◌≡◌, ◌+◌, ◌%◌, slice_index, take, drop};
ghost use Rattle.program_tools.specs.Made.{changes_of, left_of};
ghost use Rattle.program_tools.specs.Cases.{start, next_of, name_of, number_of, ended_of, cell_of, is_shown, answered_of};

use crate::input::read_full;
use crate::made;
use crate::printer::Printer;
use std::io;

// What the numbers are before a call tells them.
pub const UNTOLD: u32 = 99;

// For how many bytes of lines there is space.
const SPACE: usize = 32768;

// A cell that nobody reads.
const NOWHERE: usize = 31;

// The numbers of a case, in 32 cells: those of the letters, and behind them the four that are expected and that of the
// operation.
#[derive(Clone, Copy, Debug, PartialEq, Eq)]
pub struct Case {
    pub numbers: [u32; 32],
}

impl Case {
    // The number of a letter.
    pub fn number(&self, letter: u8) -> u32
        ensures { result ≡ slice_index self.now.numbers ((letter + 31) % 32) }
    {
        self.numbers[(usize::from(letter) + 31) % 32]
    }

    // The number of the operation.
    pub fn operation(&self) -> u32
        ensures { result ≡ slice_index self.now.numbers 30 }
    {
        self.numbers[30]
    }

    // The numbers that are expected: the reason and three more.
    pub fn expected(&self) -> [u32; 4]
        ensures { result ≡ take 4 (drop 26 self.now.numbers) }
    {
        let [.., reason, first, second, third, _, _] = self.numbers;
        [reason, first, second, third]
    }

    // What is told of a call on a reception: two numbers that are handed in, the first three bytes of its map as one
    // number, and how many bytes changed of as much of its map and its buffer as was lent.
    pub fn left(&self, told: [u32; 2], map: &[u8], buffer: &[u8]) -> [u32; 4]
        ensures { result ≡ left_of self.now.numbers told map.now buffer.now }
    {
        let lent_map = made::first(map, self.number(b'm') as usize);
        let lent_buffer = made::first(buffer, self.number(b'b') as usize);
        let bits = octets::number::<3>(map, 0) as u32;
        [told[0], told[1], bits, self.changes(lent_map, lent_buffer)]
    }

    // How many bytes of a map and a buffer differ from those that the numbers tell.
    fn changes(&self, map: &[u8], buffer: &[u8]) -> u32
        ensures { result ≡ changes_of self.now.numbers map.now buffer.now }
    {
        let old_map = made::map(self.number(b'k'), self.number(b'r'));
        let old_buffer = made::buffer(self.number(b'e'));
        made::changed(map, &old_map).wrapping_add(made::changed(buffer, &old_buffer))
    }
}

// How many cases there were, and how many differ.
#[derive(Clone, Copy, Debug, PartialEq, Eq)]
pub struct Tally {
    pub cases: u32,
    pub differ: u32,
}

// Where in the lines the reading is.
#[derive(Clone, Copy, Debug, PartialEq, Eq)]
pub enum Place {
    // In a name or a heading.
    Name,
    // In the number of a cell, with its value so far.
    Number { cell: usize, value: u32 },
    // Behind the line of a case, which is due to be run.
    Due,
    // Behind the semicolon of a line of usual numbers.
    Usual,
}

// How far the lines are read: the numbers of the case and the usual ones, where the reading is, and the tally.
#[derive(Clone, Copy, Debug, PartialEq, Eq)]
pub struct Reading {
    pub case: Case,
    pub usual: Case,
    pub place: Place,
    pub tally: Tally,
}

impl Reading {
    // Before the first letter: all numbers are 0.
    pub fn new() -> Self
        ensures { result ≡ start }
    {
        Reading {
            case: Case { numbers: [0; 32] },
            usual: Case { numbers: [0; 32] },
            place: Place::Name,
            tally: Tally {
                cases: 0,
                differ: 0,
            },
        }
    }

    // One letter more: of a name, or of the numbers. A case is due where the letter ended its line.
    pub fn next(self, letter: u8) -> Self
        ensures { result ≡ next_of letter self }
    {
        match self.place {
            Place::Number { cell, value } => self.number(letter, cell, value),
            Place::Name | Place::Due | Place::Usual => self.name(letter),
        }
    }

    // One letter more of a name: a colon ends it.
    fn name(self, letter: u8) -> Self
        ensures { result ≡ name_of letter self }
    {
        let place = if letter == b':' {
            Place::Number {
                cell: NOWHERE,
                value: 0,
            }
        } else {
            Place::Name
        };
        Reading { place, ..self }
    }

    // One letter more of the number of a cell: a digit, or what ends it.
    fn number(self, letter: u8, cell: usize, value: u32) -> Self
        ensures { result ≡ number_of letter cell value self }
    {
        if !letter.is_ascii_digit() {
            return self.ended(letter, cell, value);
        }
        let value = (value % 429496730 * 10).wrapping_add(u32::from(letter % 16));
        Reading {
            place: Place::Number { cell, value },
            ..self
        }
    }

    // A number that has ended, in its cell, and where the next one belongs. At the end of a line a case is due; at a
    // semicolon the numbers that were read are the usual ones.
    fn ended(self, letter: u8, cell: usize, value: u32) -> Self
        ensures { result ≡ ended_of letter cell value self }
    {
        let mut case = self.case;
        case.numbers[cell % 32] = value;
        match letter {
            b'\n' => Reading {
                case,
                place: Place::Due,
                ..self
            },
            b';' => Reading {
                case,
                usual: case,
                place: Place::Usual,
                ..self
            },
            _ => Reading {
                case,
                place: Place::Number {
                    cell: cell_of(letter, cell),
                    value: 0,
                },
                ..self
            },
        }
    }

    // Whether a letter that comes next is printed: those of a name and of a heading are, but for the colon behind a name
    // and the end of the line behind a semicolon.
    pub fn shows(self, letter: u8) -> bool
        ensures { result ≡ is_shown letter self }
    {
        match self.place {
            Place::Name | Place::Due => letter != b':',
            Place::Number { .. } => false,
            Place::Usual => letter != b':' && letter != b'\n',
        }
    }

    // Behind a case that was run: it is counted, by what was got, and the usual numbers hold again. Where none was due the
    // reading goes on where it is.
    pub fn answered(self, got: [u32; 4]) -> Self
        ensures { result ≡ answered_of self got }
    {
        let differs = self.case.expected() != got;
        let tally = Tally {
            cases: self.tally.cases.wrapping_add(1),
            differ: self.tally.differ.wrapping_add(u32::from(differs)),
        };
        let place = match self.place {
            Place::Due => Place::Name,
            place => place,
        };
        Reading {
            case: self.usual,
            place,
            tally,
            ..self
        }
    }
}

// The cell that a letter names behind another cell: a letter its own, an equals sign that of the first expected number, a space
// the next.
fn cell_of(letter: u8, cell: usize) -> usize
    ensures { result ≡ cell_of letter cell }
{
    match letter {
        b'a'..=b'z' => (usize::from(letter) + 31) % 32,
        b'=' => 26,
        b' ' => cell % 30 + 1,
        _ => NOWHERE,
    }
}

// What a program runs its cases by. A trait and no closure, since of a closure `run` would have to ask that it may be called.
pub trait Operation {
    // What the operation of a case answers: four numbers, the reason, 0 where it accepts, and three more.
    fn answer(&self, case: &Case) -> [u32; 4];
}

// Runs the cases whose lines stand on standard input, and prints a line for each, and at the end how many there were and how
// many differ.
pub fn run<R, O>(rt: &R, operation: &O) -> io::Result<()>
where
    R: Print + Input,
    O: Operation,
{
    let mut text = [0; SPACE];
    let n = read_full(&mut rt.reader(), &mut text);
    let rt = &Printer { rt };
    let tally = read(rt, &text[..n], operation)?;
    if n == SPACE {
        println!(rt; "the text is too long: its end was not read")?;
    }
    println!(rt; "{} cases, {} differ", tally.cases, tally.differ)
}

// Reads lines, and runs their cases.
// Kept: letter by letter, since a last line without its end is not run, and a byte that is no text is printed as it is (`next_of`).
fn read<R, O>(rt: &R, text: &[u8], operation: &O) -> io::Result<Tally>
where
    R: Print,
    O: Operation,
{
    let mut reading = Reading::new();
    for letter in text {
        if reading.shows(*letter) {
            rt.write_all(&[*letter])?;
        }
        reading = reading.next(*letter);
        if reading.place == Place::Due {
            let got = operation.answer(&reading.case);
            tell(rt, reading.case.expected(), got)?;
            reading = reading.answered(got);
        }
    }
    Ok(reading.tally)
}

// The rest of a case's line: what is expected, and what was got.
fn tell(rt: &impl Print, expected: [u32; 4], got: [u32; 4]) -> io::Result<()> {
    let [a, b, c, d] = expected;
    print!(rt; ": expected {a} {b} {c} {d}")?;
    let [a, b, c, d] = got;
    print!(rt; ", got {a} {b} {c} {d}")?;
    println!(rt; "{}", if expected == got { "" } else { " DIFFERS" })
}

#[cfg(test)]
mod tests {
    use super::*;
    use std::test::Fail;

    // Answers the length of a case.
    struct Length;

    impl Operation for Length {
        fn answer(&self, case: &Case) -> [u32; 4] {
            [0, case.number(b'l'), 0, 0]
        }
    }

    // Two cases below a heading and the usual numbers, of which one differs; and what stands on standard input, which is nothing
    // where tests run.
    #[test]
    fn cases_are_counted(rt: HostRuntime) -> Result<(), Fail> {
        let text = b"Heading\n:l20=0 20;\nas expected:\nof another length:l7\n";
        let tally = read(&rt, text, &Length)?;
        assert_eq!(rt;
            tally,
            Tally {
                cases: 2,
                differ: 1
            }
        );
        run(&rt, &Length)?;
        Ok(())
    }
}
