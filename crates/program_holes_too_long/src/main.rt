// The hole program, on the largest record with one byte behind it.
// Kept as a program of its own, since a crate has one stored input.
#![tactic(auto)]

fn main(rt: HostRuntime) {
    program_holes::run(&rt);
}
