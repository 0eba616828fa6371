use crate::{read_full, read_start};
use std::io::Read;
use std::test::*;
use std::{fs, io};

// Gives at most `most` octets with a read. Where `fails_at` octets are left one read fails, and the
// next goes on.
#[derive(Drop)]
struct Flaky<'a> {
    left: &'a [u8],
    most: usize,
    fails_at: Option<usize>,
}

impl<'a> Read for Flaky<'a> {
    fn read(&mut self, buf: &mut [u8]) -> io::Result<usize> {
        if self.fails_at == Some(self.left.len()) {
            self.fails_at = None;
            return Err(io::Error::from(io::ErrorKind::BrokenPipe));
        }
        let n = self.left.len().min(buf.len()).min(self.most);
        buf[..n].copy_from_slice(&self.left[..n]);
        self.left = &self.left[n..];
        Ok(n)
    }
}

fn reader(octets: &[u8], most: usize, fails_at: Option<usize>) -> Flaky<'_> {
    Flaky {
        left: octets,
        most,
        fails_at,
    }
}

#[test]
fn a_failing_read_ends_the_input(rt: HostRuntime) {
    let mut input = reader(b"abcdefg", 2, Some(3));
    let mut buf = [b'-'; 8];
    assert_eq!(rt; read_full(&mut input, &mut buf), 4);
    assert_eq!(rt; buf, *b"abcd----");
    // what is behind the failure is still there for another call
    assert_eq!(rt; read_full(&mut input, &mut buf), 3);
    assert_eq!(rt; buf, *b"efgd----");
}

#[test]
fn a_read_that_fails_at_once_gives_nothing(rt: HostRuntime) {
    let mut buf = [b'-'; 4];
    assert_eq!(rt; read_full(&mut reader(b"abc", 3, Some(3)), &mut buf), 0);
    assert_eq!(rt; buf, *b"----");
}

#[test]
fn short_reads_fill_up(rt: HostRuntime) {
    let mut buf = [b'-'; 8];
    assert_eq!(rt; read_full(&mut reader(b"abcdefg", 1, None), &mut buf), 7);
    assert_eq!(rt; buf, *b"abcdefg-");
    assert_eq!(rt; read_full(&mut reader(b"0123456", 3, None), &mut buf), 7);
    assert_eq!(rt; buf, *b"0123456-");
}

#[test]
fn a_full_buffer_ends_it(rt: HostRuntime) {
    let mut input = reader(b"abcdefg", 2, None);
    let mut buf = [b'-'; 5];
    assert_eq!(rt; read_full(&mut input, &mut buf), 5);
    assert_eq!(rt; buf, *b"abcde");
    assert_eq!(rt; input.left.len(), 2);
    // a buffer with no room asks for no read
    let mut failing = reader(b"ab", 1, Some(2));
    assert_eq!(rt; read_full(&mut failing, &mut []), 0);
    assert!(rt; failing.fails_at.is_some());
}

#[test]
fn the_start_of_a_file(rt: HostRuntime) -> Result<(), Fail> {
    let mut buf = [b'-'; 4];
    assert_eq!(rt; read_start(&rt, "no_such.dat", &mut buf), 0);
    // a folder can be opened, and its first read fails
    assert_eq!(rt; read_start(&rt, ".", &mut buf), 0);
    assert_eq!(rt; buf, *b"----");
    fs::write(&rt, "start.dat", b"abcdefg")?;
    assert_eq!(rt; read_start(&rt, "start.dat", &mut buf), 4);
    assert_eq!(rt; buf, *b"abcd");
    let mut room = [b'-'; 9];
    assert_eq!(rt; read_start(&rt, "start.dat", &mut room), 7);
    assert_eq!(rt; room, *b"abcdefg--");
    fs::remove_file(&rt, "start.dat")?;
    Ok(())
}
