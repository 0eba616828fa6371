// Reading the start of a file, or of any reader, into a buffer of fixed size.
#![tactic(auto)]

ghost use Rattle.std.specs.Prelude.{take};
ghost use Rattle.std.specs.Io.KnownBytes.{Consumes};
ghost use Rattle.io.specs.Counts.{IsPrefixLen};

use std::fs::File;
use std::io::Read;
use std::rt::Files;

// Reads until the buffer is full, the reader ends or a read fails, and answers how many octets it put
// at the buffer's start: the first that the reader had.
pub fn read_full<R: Read>(reader: &mut R, buf: &mut [u8]) -> usize
    ensures prefix_len { IsPrefixLen result buf.new }
    ensures octets { Consumes (R.remaining reader.old) (R.remaining reader.new) (take result buf.new) }
{
    let mut done = 0;
    // Kept: a read gives any number of octets, so that no `for` counts them, and std reads to an end only into heap memory.
    while done < buf.len() {
        match reader.read(&mut buf[done..]) {
            Ok(0) | Err(_) => break,
            Ok(n) => done += n,
        }
    }
    done
}

// Reads a file's first octets, as many as the buffer holds, and answers how many there are. A file
// that cannot be opened counts as empty, and one whose read fails ends there.
pub fn read_start(rt: &impl Files, path: &str, buf: &mut [u8]) -> usize
    ensures { IsPrefixLen result buf.new }
{
    match File::open(rt, path) {
        Ok(mut file) => read_full(&mut file, buf),
        Err(_) => 0,
    }
}

#[cfg(test)]
mod tests;
