// Standard input, read until a buffer is full, the input ends or a read fails.
ghost use Rattle.std.specs.Prelude.{◌≤◌, length};

use std::io::{Read, Result};

// Fills the buffer from its start. It says how many bytes were read, since those before a read that
// failed are answered too; `read_exact` does not say it.
pub fn fill<R: Read>(input: &mut R, buf: &mut [u8]) -> (usize, Result<()>)
    ensures { result.0 ≤ length buf.old }
{
    let mut have = 0;
    while have < buf.len() {
        match input.read(&mut buf[have..]) {
            Ok(0) => break,
            Ok(n) => have += n,
            Err(error) => return (have, Err(error)),
        }
    }
    (have, Ok(()))
}
