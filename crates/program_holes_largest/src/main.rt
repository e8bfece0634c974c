// The hole program, on the largest record, with 16,384 holes.
// Kept as a program of its own, since a crate has one stored input.
#![tactic(auto)]

fn main(rt: HostRuntime) {
    program_holes::run(&rt);
}
