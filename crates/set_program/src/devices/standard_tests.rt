//! Tests of the devices over std: over a reader that fails once, and over a writer that takes
//! nothing.
use crate::devices::memory_source::give;
use crate::devices::{Failed, Sink, Source, StdSink, StdSource};
use crate::program::run;
use crate::status::Status;
use std::io;
use std::io::{Read, Write};
use std::test::Fail;

// A reader whose first read fails, and whose others give the bytes at once.
#[derive(Drop)]
struct FailsOnce {
    failed: bool,
    bytes: Vec<u8>,
}

impl Read for FailsOnce {
    fn read(&mut self, buf: &mut [u8]) -> io::Result<usize> {
        if !self.failed {
            self.failed = true;
            return Err(io::Error::from(io::ErrorKind::Other));
        }
        let count = give(&self.bytes, buf, buf.len());
        self.bytes.clear();
        Ok(count)
    }
}

// A writer that takes nothing, and can be flushed.
#[derive(Drop)]
struct TakesNothing;

impl Write for TakesNothing {
    fn write(&mut self, _buf: &[u8]) -> io::Result<usize> {
        Ok(0)
    }

    fn flush(&mut self) -> io::Result<()> {
        Ok(())
    }
}

// A writer that can't be written to, nor flushed.
#[derive(Drop)]
struct Broken;

impl Write for Broken {
    fn write(&mut self, _buf: &[u8]) -> io::Result<usize> {
        Err(io::Error::from(io::ErrorKind::BrokenPipe))
    }

    fn flush(&mut self) -> io::Result<()> {
        Err(io::Error::from(io::ErrorKind::BrokenPipe))
    }
}

#[test]
fn source_goes_on_after_a_fault(rt: HostRuntime) -> Result<(), Fail> {
    let alloc = rt.alloc();
    let mut source = StdSource::new(FailsOnce {
        failed: false,
        bytes: b"a: 1\n".to_vec(alloc)?,
    });
    let mut buffer = [0u8; 8];
    assert_eq!(rt; source.read(&mut buffer), Err(Failed));
    assert_eq!(rt; source.read(&mut buffer), Ok(5));
    assert_eq!(rt; &buffer[..5], b"a: 1\n".as_slice());
    assert_eq!(rt; source.read(&mut buffer), Ok(0));
    Ok(())
}

#[test]
fn a_write_that_takes_nothing_fails(rt: HostRuntime) -> Result<(), Fail> {
    let mut sink = StdSink::new(TakesNothing);
    assert_eq!(rt; sink.write(b"a"), Err(Failed));
    assert_eq!(rt; sink.finish(), Ok(()));
    Ok(())
}

#[test]
fn a_write_and_a_flush_that_fail_are_told(rt: HostRuntime) -> Result<(), Fail> {
    let alloc = rt.alloc();
    let mut sink = StdSink::new(Broken);
    assert_eq!(rt; sink.write(b"a"), Err(Failed));
    assert_eq!(rt; sink.finish(), Err(Failed));
    let mut source = StdSource::new(b"a: 1\n".as_slice());
    let status = run(alloc, &[], &mut source, &mut sink);
    assert_eq!(rt; status, Status::WriteFault);
    Ok(())
}

#[test]
fn runs_over_std(rt: HostRuntime) -> Result<(), Fail> {
    let alloc = rt.alloc();
    let mut written = Vec::new(alloc);
    let mut source = StdSource::new(b"a: 1..=5 4..=8 |\n".as_slice());
    let mut sink = StdSink::new(&mut written);
    let status = run(alloc, &[], &mut source, &mut sink);
    assert_eq!(rt; status, Status::Done);
    drop(sink);
    assert_eq!(rt;
        written.as_slice(),
        b"a: 1..=8\n# -9223372036854775808..=0\n# 1..=8 a\n# 9..=9223372036854775807\n".as_slice()
    );
    Ok(())
}
