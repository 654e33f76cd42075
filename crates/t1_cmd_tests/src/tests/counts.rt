//! What counted readers and writers hand on, by exact bytes, and flushes.
use std::io;
use std::io::{Read, Write};
use std::test::Fail;
use t1_cmd::Counted;
use t1_cmd_shared_tests::feeds::{FINE, Plan, Sink};

/// Whether a read gives this many bytes, and the buffer then has these.
fn reads(reader: &mut Counted<&[u8]>, buffer: &mut [u8], count: usize, bytes: &[u8]) -> bool {
    match reader.read(buffer) {
        Ok(got) => got == count && *buffer == *bytes,
        Err(_) => false,
    }
}

/// Whether three reads into four bytes give the six bytes `abcdef`, then nothing.
fn reads_in_turn(reader: &mut Counted<&[u8]>) -> bool {
    let mut buffer = [0u8; 4];
    reads(reader, &mut buffer, 4, b"abcd")
        && reads(reader, &mut buffer, 2, b"efcd")
        && reads(reader, &mut buffer, 0, b"efcd")
}

#[test]
fn reads_are_handed_on(rt: HostRuntime) {
    let mut reader = Counted::new(b"abcdef".as_slice());
    assert!(rt; reads_in_turn(&mut reader));
    assert!(rt; (reader.calls(), reader.failed()) == (3, 0));
}

/// Whether a write takes this many bytes.
fn takes(writer: &mut Counted<Sink>, bytes: &[u8], count: usize) -> bool {
    match writer.write(bytes) {
        Ok(got) => got == count,
        Err(_) => false,
    }
}

#[test]
fn writes_are_handed_on(rt: HostRuntime) {
    let plan = Plan { most: 4, ..FINE };
    let mut writer = Counted::new(Sink::new(Vec::new(rt.alloc()), plan));
    assert!(rt; takes(&mut writer, b"abcdef", 4));
    assert!(rt; takes(&mut writer, b"bcdefg", 4));
    assert!(rt; (writer.calls(), writer.failed()) == (2, 0));
    let text = writer.into_inner().text;
    assert!(rt; text.as_slice() == b"abcdbcde".as_slice());
}

/// A writer that counts its flushes.
#[derive(Drop)]
struct Flushes {
    count: u64,
}

impl Write for Flushes {
    fn write(&mut self, buf: &[u8]) -> io::Result<usize> {
        Ok(buf.len())
    }

    fn flush(&mut self) -> io::Result<()> {
        self.count = self.count.saturating_add(1);
        Ok(())
    }
}

#[test]
fn flushes_are_handed_on(rt: HostRuntime) -> Result<(), Fail> {
    let mut writer = Counted::new(Flushes { count: 0 });
    writer.flush()?;
    writer.flush()?;
    assert!(rt; (writer.calls(), writer.failed()) == (2, 0));
    assert!(rt; writer.into_inner().count == 2);
    Ok(())
}
