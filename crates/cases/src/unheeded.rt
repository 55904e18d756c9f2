// How test programs print. They pass over a write that fails, as they always did: they go on with the next one, as `replay` does, and end with status 0. What could not be
// written is missing from their output, which is compared. Only `feeder` and `repair` say on standard error that theirs cannot be written.
ghost use Rattle.std.specs.Prelude.{IsOk};

use std::fmt::Display;
use std::io;

// What prints, its failures unheeded: each call answers that it succeeded. What was written is left to the system, so no contract speaks of it.
#[derive(Drop)]
pub struct Unheeded<'a, P>(pub &'a P);

// The trait's own `write_some` serves: it asks `write_all`, which takes all of the bytes.
impl<P: Print> Print for Unheeded<'_, P> {
    fn print<D: Display + Drop>(&self, value: D) -> io::Result<()>
        ensures { IsOk result }
    {
        let _ = self.0.print(value);
        Ok(())
    }

    fn println<D: Display + Drop>(&self, value: D) -> io::Result<()>
        ensures { IsOk result }
    {
        let _ = self.0.println(value);
        Ok(())
    }

    fn write_all(&self, bytes: &[u8]) -> io::Result<()>
        ensures { IsOk result }
    {
        let _ = self.0.write_all(bytes);
        Ok(())
    }
}
