// What the programs print by.
ghost use Rattle.std.specs.Prelude.{◌≡◌, Ok};

use std::fmt::Display;
use std::io;

// Prints as a runtime does. Where output cannot be written there is nobody to tell, and what comes behind it is printed all the same.
#[derive(Clone, Copy)]
pub struct Printer<'a, R> {
    pub rt: &'a R,
}

impl<'a, R: Print> Print for Printer<'a, R> {
    // A value.
    fn print<D: Display + Drop>(&self, value: D) -> io::Result<()>
        ensures { result ≡ Ok tt }
    {
        let _ = self.rt.print(value);
        Ok(())
    }

    // A value and the end of a line.
    fn println<D: Display + Drop>(&self, value: D) -> io::Result<()>
        ensures { result ≡ Ok tt }
    {
        let _ = self.rt.println(value);
        Ok(())
    }

    // Bytes as they are.
    fn write_all(&self, bytes: &[u8]) -> io::Result<()>
        ensures { result ≡ Ok tt }
    {
        let _ = self.rt.write_all(bytes);
        Ok(())
    }
}
