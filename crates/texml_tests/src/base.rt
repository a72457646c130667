use std::io::{Error, ErrorKind, Read, Write};
use std::test::Fail;
use std::{env, fs, io};
use texml_base::{DiskFile, DiskFiles, Files, Sink, SinkFail, StreamSink};

#[test]
fn real_file_is_read_to_its_end(rt: HostRuntime) -> Result<(), Fail> {
    let alloc = rt.alloc();
    let folder = env::temp_dir(&rt)?;
    let name = format!(in alloc; "{}/texml, a name with spaces.tex", folder.as_str())?;
    fs::write(&rt, name.as_str(), "hello")?;
    let mut files = DiskFiles::new(alloc, &rt);
    let id = files.open_file(alloc, &name)?.ok_or("missing")?;
    fs::remove_file(&rt, name.as_str())?;
    let mut into = [0u8; 8];
    assert_eq!(rt; files.read_file(id, &mut into)?, 5);
    assert_eq!(rt; &into[..5], b"hello".as_slice());
    assert_eq!(rt; files.read_file(id, &mut into)?, 0);
    files.close_file(id);
    Ok(())
}

// It gives a byte a read, but is interrupted at its first read, and its third finds a broken pipe.
#[derive(Drop)]
struct Stuttering(u8);

impl Read for Stuttering {
    fn read(&mut self, buf: &mut [u8]) -> io::Result<usize> {
        self.0 = self.0.saturating_add(1);
        match self.0 {
            1 => Err(Error::from(ErrorKind::Interrupted)),
            3 => Err(Error::from(ErrorKind::BrokenPipe)),
            _ => Ok(buf.len().min(1)),
        }
    }
}

#[test]
fn interrupted_reads_go_on_and_failed_ones_do_not(rt: HostRuntime) -> Result<(), Fail> {
    let mut file = DiskFile {
        file: Stuttering(0),
        budget: 2,
    };
    let mut into = [0u8; 8];
    for (want, reads) in [(Some(1), 2), (None, 3), (Some(1), 4), (None, 4)] {
        assert_eq!(rt; file.give(&mut into).ok(), want);
        assert_eq!(rt; file.file.0, reads);
    }
    Ok(())
}

// It takes two bytes a write, but is interrupted at its second write, and its fourth finds a broken pipe.
#[derive(Drop)]
struct Choking {
    taken: Vec<u8>,
    writes: u8,
}

impl Write for Choking {
    fn write(&mut self, buf: &[u8]) -> io::Result<usize> {
        self.writes = self.writes.saturating_add(1);
        match self.writes {
            2 => Err(Error::from(ErrorKind::Interrupted)),
            4 => Err(Error::from(ErrorKind::BrokenPipe)),
            _ => {
                let count = buf.len().min(2);
                self.taken.extend_from_slice(&buf[..count])?;
                Ok(count)
            }
        }
    }

    fn flush(&mut self) -> io::Result<()> {
        Ok(())
    }
}

#[test]
fn interrupted_writes_go_on_and_failed_ones_do_not(rt: HostRuntime) -> Result<(), Fail> {
    let mut writer = Choking {
        taken: Vec::new(rt.alloc()),
        writes: 0,
    };
    let mut sink = StreamSink::new(&mut writer);
    assert_eq!(rt; sink.write(b"abcdef"), Err(SinkFail));
    assert_eq!(rt; sink.write(b"gh"), Ok(()));
    assert_eq!(rt; writer.taken.as_slice(), b"abcdgh".as_slice());
    assert_eq!(rt; writer.writes, 5);
    Ok(())
}
