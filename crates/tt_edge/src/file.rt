//! A source over a file. It tells nothing of its bytes.
ghost use Rattle.std.specs.Prelude.{◌≡◌, ◌≤◌, None, length, IfOk};

use crate::source::{Got, Source};
use std::fs::{self, Files};
use std::io::{self, Read};

/// A source over the file at a path. It opens the file at its first read; where that fails, the read fails, and the next
/// read tries again.
#[derive(Drop)]
pub struct FileSource<R: Files> {
    files: R,
    path: String,
    file: Option<R::File>,
    faults: u64,
    ends: u64,
}

impl<R: Files> FileSource<R> {
    ghost use Rattle.tt_edge.specs.File.{file_faults_of, file_ends_of};

    /// Nothing was opened or read yet.
    pub fn new(files: R, path: String) -> FileSource<R>
        ensures faults { file_faults_of result ≡ 0 }
        ensures ends { file_ends_of result ≡ 0 }
    {
        FileSource {
            files,
            path,
            file: None,
            faults: 0,
            ends: 0,
        }
    }

    /// Opens the file, if it is not open, and reads from it.
    fn pull(&mut self, out: &mut [u8]) -> io::Result<usize>
        ensures within { IfOk result (λ count. count ≤ length out.old) }
        ensures faults { file_faults_of self.new ≡ file_faults_of self.old }
        ensures ends { file_ends_of self.new ≡ file_ends_of self.old }
    {
        let mut file = match self.file.take() {
            Some(file) => file,
            None => fs::open(&self.files, self.path.as_str())?,
        };
        let got = file.read(out);
        self.file = Some(file);
        got
    }
}

impl<R: Files> Source for FileSource<R> {
    ghost left = { λ _. None };

    ghost faults = { λ s. s.faults };

    ghost ends = { λ s. s.ends };

    fn read(&mut self, out: &mut [u8]) -> Got {
        if self.ends > 0 {
            self.ends = self.ends.saturating_add(1);
            return Got::End;
        }
        match self.pull(out) {
            Ok(0) => {
                self.ends = self.ends.saturating_add(1);
                Got::End
            }
            Ok(n) => Got::Bytes(n),
            Err(_) => {
                self.faults = self.faults.saturating_add(1);
                Got::Failed
            }
        }
    }
}
