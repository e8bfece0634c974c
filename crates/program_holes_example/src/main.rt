// The hole program, on the record of 01's example.
// Kept as a program of its own, since a crate has one stored input.
#![tactic(auto)]

fn main(rt: HostRuntime) {
    program_holes::run(&rt);
}
