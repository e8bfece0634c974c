// What the trial programs share: bytes that are made, faults that are planted, what lines show, and cases by name.
//
// `cases::run` reads standard input and writes standard output. No contract can say what is read and written, so it
// promises nothing but to be safe and to end; what the programs write by it is compared with their stored output. Every other
// function promises what it answers and what it leaves (`specs/Made.antt`, `specs/Planted.antt`, `specs/Cases.antt`, `specs/Ending.antt`), and
// what is shown its text (`specs/Show.antt`); of what comes from outside `input::read_full` promises where it stands, and of a reader
// whose bytes are known, which they are.
#![tactic(auto)]

pub mod cases;
pub mod ending;
pub mod input;
pub mod made;
pub mod planted;
pub mod printer;
pub mod show;
