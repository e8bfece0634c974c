// How a program ends that has printed.
ghost use Rattle.std.specs.Prelude.{◌≡◌};
ghost use Rattle.program_tools.specs.Ending.{ended};

use std::io;

// What a program ends with: an error where memory ran out, and none else. Where input cannot be read it has ended, and where output
// cannot be written there is nobody to tell.
pub fn ended(printed: io::Result<()>) -> io::Result<()>
    ensures { result ≡ ended printed }
{
    let Err(error) = printed else {
        return Ok(());
    };
    match error.kind() {
        io::ErrorKind::OutOfMemory => Err(error),
        _ => Ok(()),
    }
}
