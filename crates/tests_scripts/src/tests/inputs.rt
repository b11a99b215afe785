//! Inputs are read whole or not at all.
use cfdp_command_line::read_whole;
use cfdp_sim::RunFault;
use std::alloc::Global;
use std::io;
use std::io::{Error, ErrorKind, Read};

/// A reader that gives one octet and then fails.
#[derive(Drop)]
struct Broken {
    begun: bool,
}

impl Read for Broken {
    fn read(&mut self, buffer: &mut [u8]) -> io::Result<usize> {
        if self.begun || buffer.is_empty() {
            return Err(Error::from(ErrorKind::BrokenPipe));
        }
        self.begun = true;
        buffer[0] = b'#';
        Ok(1)
    }
}

/// Whether an input is read to its end.
fn is_read_whole(alloc: Global) -> bool {
    match read_whole(alloc, b"run\n".as_slice()) {
        Ok(octets) => octets.as_slice() == b"run\n".as_slice(),
        Err(_) => false,
    }
}

#[test]
fn whole_or_not_at_all(rt: HostRuntime) {
    let broken = Broken { begun: false };
    let is_reported = matches!(read_whole(rt.alloc(), broken), Err(RunFault::Read));
    assert!(rt; is_reported, "a reader that fails");
    assert!(rt; is_read_whole(rt.alloc()), "a reader that ends");
}
