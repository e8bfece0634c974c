// The station for a host program: the static library, which `host/library` calls `libstation.a`, has the functions below under these names. Each is a call of the
// function of the same name in `station`, with the same promise. Kept: flat parameters, a number for what is refused and lent numbers for
// what is told, since that is the C interface.
#![tactic(auto)]

pub mod boundary;
pub mod frame_boundary;
pub mod request_boundary;
