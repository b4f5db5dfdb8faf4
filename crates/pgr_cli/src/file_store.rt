ghost use Rattle.std.specs.Prelude.{◌≡◌, ◌≤◌};
ghost use Rattle.pgr_outside.specs.Faults.{HasRisen};

use pgr_outside::{Store, StoreFault};
use std::alloc::Global;
use std::io::{ErrorKind, Read};
use std::rt::Files;
use std::{fs, io};

/// The files of the system, by their names as they stand.
///
/// A read at 0 opens the file anew, and it is kept open. A read of that name at the number of bytes that were
/// read since then reads on; a read at any other place opens the file anew and drops the bytes before the place.
/// No content is known of it. Each error of the system raises one count of faults, which is that of every name.
#[derive(Drop)]
pub struct FileStore<'a, R: Files> {
    rt: &'a R,
    alloc: Global,
    open: Option<OpenedFile<R::File>>,
    faults: u64,
}

/// A file that stands open, and where the next read of it begins.
#[derive(Drop)]
struct OpenedFile<F> {
    name: String,
    file: F,
    at: u64,
}

impl<'a, R: Files> FileStore<'a, R> {
    /// A store without an open file and without a fault. It takes no memory.
    pub fn new(rt: &'a R, alloc: Global) -> FileStore<'a, R>
        ensures { result.faults ≡ 0 }
    {
        FileStore {
            rt,
            alloc,
            open: None,
            faults: 0,
        }
    }

    /// Counts one more fault; at the last value of its type the count stays.
    fn count_fault(&mut self) -> StoreFault
        ensures fault { result ≡ StoreFault.Failed }
        ensures risen { HasRisen self.old.faults self.new.faults }
        ensures kept { self.old.faults ≤ self.new.faults }
    {
        self.faults = self.faults.saturating_add(1);
        StoreFault::Failed
    }
}

impl<R: Files> Store for FileStore<'_, R> {
    ghost use Rattle.std.specs.Prelude.{None};

    ghost content = { λ _ _. None };

    ghost faults = { λ store _. store.faults };

    fn read_at(&mut self, name: &str, at: u64, buf: &mut [u8]) -> Result<usize, StoreFault> {
        let mut opened = match self.open.take() {
            Some(opened) if opened.at == at && at != 0 && opened.name.as_str() == name => opened,
            _ => match open_at(self.rt, self.alloc, name, at) {
                Ok(opened) => opened,
                Err(error) if error.kind() == ErrorKind::OutOfMemory => return Err(
                    StoreFault::Memory,
                ),
                Err(_) => return Err(self.count_fault()),
            },
        };
        match opened.file.read(buf) {
            Ok(count) => {
                opened.at = opened.at.saturating_add(count as u64);
                self.open = Some(opened);
                Ok(count)
            }
            Err(_) => Err(self.count_fault()),
        }
    }
}

/// Opens a file anew, and drops the bytes before the place.
fn open_at<R: Files>(
    rt: &R,
    alloc: Global,
    name: &str,
    at: u64,
) -> io::Result<OpenedFile<R::File>> {
    let name = String::from_str(alloc, name)?;
    let mut file = fs::open(rt, name.as_str())?;
    skip(&mut file, at)?;
    Ok(OpenedFile { name, file, at })
}

/// Reads and drops so many bytes, or all where there are fewer.
fn skip<F: Read>(file: &mut F, count: u64) -> io::Result<()> {
    let mut dropped = [0u8; 4096];
    let mut left = count;
    while left > 0 {
        let most = left.min(4096) as usize;
        let read = file.read(&mut dropped[..most])?;
        if read == 0 {
            break;
        }
        left -= read as u64;
    }
    Ok(())
}
