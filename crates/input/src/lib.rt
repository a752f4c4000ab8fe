// Reading all of a program's input, so that a reading that fails is not taken for the end of the text.
#![tactic(auto)]

ghost use Rattle.std.specs.Prelude.{◌<◌, length, take, IfOk};
ghost use Rattle.std.specs.Io.{ReadsAtMost};
ghost use Rattle.std.specs.Io.KnownBytes.{Consumes, IsAtEnd};

use std::io::{self, Read};

// Reads until the buffer is full or the input ends, and answers how many bytes stand at the front of the buffer; or why a read failed.
pub fn all<R: Read>(reader: &mut R, buffer: &mut [u8]) -> io::Result<usize>
    ensures got { ReadsAtMost result buffer.new }
    ensures bytes { IfOk result (λ n. Consumes (R.remaining reader.old) (R.remaining reader.new) (take n buffer.new)) }
    ensures end { IfOk result (λ n. n < length buffer.new → IsAtEnd (R.remaining reader.new)) }
{
    // a loop of our own: std has none that fills a lent slice up to the end of the input
    let mut n = 0;
    while n < buffer.len() {
        let k = reader.read(&mut buffer[n..])?;
        if k == 0 {
            return Ok(n);
        }
        n += k;
    }
    Ok(n)
}
