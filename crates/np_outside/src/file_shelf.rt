ghost use Rattle.std.specs.Prelude.{◌≡◌, None, true, false, is_some};

use crate::failure::{Failed, counted};
use crate::shelf::Shelf;
use std::fs::File;
use std::io::Read;
use std::rt::Files as FileSystem;
use std::str;

/// The files of the system, by their paths. It tells nothing of them. Each refusal by the system is
/// a failure, want of memory among them, and every failure is a break.
pub struct FileShelf<'a, R: FileSystem> {
    rt: &'a R,
    file: Option<R::File>,
    faults: u64,
}

/// Opens a file to be read. A path is text.
fn open<R: FileSystem>(rt: &R, path: &[u8]) -> Option<R::File> {
    let path = str::from_utf8(path).ok()?;
    File::open(rt, path).ok()
}

impl<'a, R: FileSystem> FileShelf<'a, R> {
    /// No file is begun, and no call has failed.
    pub fn new(rt: &'a R) -> FileShelf<'a, R>
        ensures unbegun { ⟦<FileShelf<'a, R> as Shelf>⟧.is_begun result ≡ false }
        ensures faultless { ⟦<FileShelf<'a, R> as Shelf>⟧.faults result ≡ 0 }
    {
        FileShelf {
            rt,
            file: None,
            faults: 0,
        }
    }
}

impl<R: FileSystem> Drop for FileShelf<'_, R> {
    fn drop(self) {
        let FileShelf {
            rt: _,
            file: _,
            faults: _,
        } = self;
    }
}

impl<R: FileSystem> Shelf for FileShelf<'_, R> {
    ghost files = { λ _. None };

    ghost rest = { λ _. None };

    ghost is_begun = { λ s. is_some s.file };

    ghost faults = { λ s. s.faults };

    ghost breaks = { λ s. s.faults };

    ghost cap = { λ _. None };

    ghost counts_failures_alone = { λ _. true };

    ghost told = { λ _. tt };

    ghost capped = { λ _. tt };

    /// A path that is no UTF-8 is a failure, as is what can't be opened. A folder fails here or at
    /// its first read.
    fn begin(&mut self, name: &[u8]) -> Result<(), Failed> {
        self.file = None;
        let file = counted(&mut self.faults, open(self.rt, name))?;
        self.file = Some(file);
        Ok(())
    }

    fn read(&mut self, buf: &mut [u8]) -> Result<usize, Failed> {
        let given = match &mut self.file {
            Some(file) => file.read(buf).ok(),
            None => None,
        };
        counted(&mut self.faults, given)
    }
}
