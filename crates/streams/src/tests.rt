use super::read_full;
use std::io;
use std::io::{ErrorKind, Read};
use std::test::Fail;

// Gives a byte at a time, 1, 2 and so on, and fails after `left` of them.
#[derive(Drop)]
struct Failing {
    left: u8,
    next: u8,
}

impl Read for Failing {
    fn read(&mut self, buf: &mut [u8]) -> io::Result<usize> {
        if buf.is_empty() {
            return Ok(0);
        }
        if self.left == 0 {
            return Err(io::Error::from(ErrorKind::ConnectionReset));
        }
        buf[0] = self.next;
        self.left -= 1;
        self.next = self.next.wrapping_add(1);
        Ok(1)
    }
}

#[test]
fn reads_what_there_is_and_fits(rt: HostRuntime) -> Result<(), Fail> {
    let mut buf = [9u8; 4];
    let mut three: &[u8] = &[1, 2, 3];
    assert_eq!(rt; read_full(&mut three, &mut buf)?, 3);
    assert_eq!(rt; buf, [1, 2, 3, 9]);
    let mut five: &[u8] = &[1, 2, 3, 4, 5];
    assert_eq!(rt; read_full(&mut five, &mut buf)?, 4);
    assert_eq!(rt; buf, [1, 2, 3, 4]);
    assert_eq!(rt; five, [5].as_slice());
    Ok(())
}

#[test]
fn gives_the_error_of_a_read(rt: HostRuntime) {
    let mut buf = [9u8; 4];
    let mut reader = Failing { left: 2, next: 1 };
    assert!(rt; read_full(&mut reader, &mut buf).is_err());
    assert_eq!(rt; buf, [1, 2, 9, 9]);
}
