//! A file system whose calls are interrupted so many times before each succeeds.
ghost use Rattle.std.specs.Prelude.{◌≡◌, IfOk};

use std::alloc::Allocator;
use std::cell::Cell;
use std::fmt::Display;
use std::fs::{Files, Metadata, OpenFile, OpenOptions};
use std::io::{self, ErrorKind, Print, Read, Seek, SeekFrom, Write};
use std::test::Fail;
use xsk_io::{Bay, BayFailed, FileBay, Stream};

fn refused<T>() -> io::Result<T> {
    Err(io::Error::from(ErrorKind::Unsupported))
}

/// Is interrupted so many times, and then reads and writes one byte.
#[derive(Drop)]
struct OneByte {
    interruptions: u32,
}

impl OneByte {
    fn call(&mut self) -> io::Result<usize>
        ensures { IfOk result (λ count. count ≡ 1) }
    {
        if self.interruptions == 0 {
            return Ok(1);
        }
        self.interruptions -= 1;
        Err(io::Error::from(ErrorKind::Interrupted))
    }
}

impl Read for OneByte {
    fn read(&mut self, buf: &mut [u8]) -> io::Result<usize> {
        Ok(self.call()?.min(buf.len()))
    }
}

impl Write for OneByte {
    fn write(&mut self, buf: &[u8]) -> io::Result<usize> {
        Ok(self.call()?.min(buf.len()))
    }

    fn flush(&mut self) -> io::Result<()> {
        Ok(())
    }
}

impl Seek for OneByte {
    fn seek(&mut self, _to: SeekFrom) -> io::Result<u64> {
        refused()
    }
}

impl OpenFile for OneByte {
    fn metadata(&self) -> io::Result<Metadata> {
        Ok(Metadata::of_file(1))
    }

    fn set_len(&self, _size: u64) -> io::Result<()> {
        Ok(())
    }

    fn sync_all(&self) -> io::Result<()> {
        refused()
    }

    fn sync_data(&self) -> io::Result<()> {
        refused()
    }
}

/// Opens a file after so many interruptions, whose own calls are interrupted as often.
#[derive(Drop)]
struct Interrupted {
    interruptions: u32,
    opens: Cell<u32>,
}

impl Files for Interrupted {
    type File = OneByte;

    type Dir = io::Empty;

    fn open_file(&self, _how: &OpenOptions, _path: &str) -> io::Result<OneByte> {
        let interruptions = self.interruptions;
        let before = self.opens.get();
        if before < interruptions {
            self.opens.set(before.saturating_add(1));
            return Err(io::Error::from(ErrorKind::Interrupted));
        }
        Ok(OneByte { interruptions })
    }

    fn open_dir(&self, _path: &str) -> io::Result<io::Empty> {
        refused()
    }

    fn metadata(&self, _path: &str) -> io::Result<Metadata> {
        refused()
    }

    fn symlink_metadata(&self, _path: &str) -> io::Result<Metadata> {
        refused()
    }

    fn copy(&self, _from: &str, _to: &str) -> io::Result<u64> {
        refused()
    }

    fn rename(&self, _from: &str, _to: &str) -> io::Result<()> {
        refused()
    }

    fn remove_file(&self, _path: &str) -> io::Result<()> {
        refused()
    }

    fn create_dir(&self, _path: &str) -> io::Result<()> {
        refused()
    }

    fn remove_dir(&self, _path: &str) -> io::Result<()> {
        refused()
    }

    fn remove_dir_all<B: Allocator>(&self, _alloc: B, _path: &str) -> io::Result<()> {
        refused()
    }
}

impl Print for Interrupted {
    fn print<D: Display + Drop>(&self, _value: D) -> io::Result<()> {
        refused()
    }

    fn println<D: Display + Drop>(&self, _value: D) -> io::Result<()> {
        refused()
    }

    fn write_all(&self, _bytes: &[u8]) -> io::Result<()> {
        refused()
    }
}

/// What an open, a read of four bytes and a write of four give over files that are interrupted so often.
fn outcomes(interruptions: u32) -> [Result<usize, BayFailed>; 3] {
    let mut bay = FileBay::new(Interrupted {
        interruptions,
        opens: Cell::new(0),
    });
    let opened = bay.open(Stream::Input(0), "in");
    let mut buf = [0u8; 4];
    let read = match opened {
        Ok(()) => bay.read(Stream::Input(0), &mut buf),
        Err(failed) => Err(failed),
    };
    [opened.map(|()| 0), read, written(interruptions)]
}

/// What a write of four bytes gives over a file that is interrupted so often; the open before it isn't.
fn written(interruptions: u32) -> Result<usize, BayFailed> {
    let mut bay = FileBay::new(Interrupted {
        interruptions,
        opens: Cell::new(u32::MAX),
    });
    bay.open(Stream::Output(3), "out")?;
    bay.write(Stream::Output(3), b"text")
}

#[test]
fn a_thousand_interruptions_are_borne(rt: HostRuntime) {
    assert_eq!(rt; outcomes(0), [Ok(0), Ok(1), Ok(1)]);
    assert_eq!(rt; outcomes(1_000), [Ok(0), Ok(1), Ok(1)]);
    assert_eq!(rt;
        outcomes(1_001),
        [Err(BayFailed), Err(BayFailed), Err(BayFailed)]
    );
}
