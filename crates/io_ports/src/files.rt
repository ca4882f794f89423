// Ports over files and standard output. They tell no content.
ghost use Rattle.std.specs.Prelude.{◌≡◌, ◌<◌, ◌≤◌, ℕ, length, IfOk, None};
ghost use Rattle.std.specs.Io.{ReadsAtMost, WritesAtMost};

use crate::{Failed, Sink, Source};
use std::io::{Read, Write};
use std::marker::Model;
use std::rt::Files;
use std::{fs, io};

/// A file that is read, opened at its first read.
///
/// A failed opening or read is counted. It tells no content.
#[derive(Drop)]
pub struct FileSource<'a, R: Files> {
    rt: &'a R,
    path: String,
    file: Option<R::File>,
    faults: u64,
}

impl<'a, R: Files> Model for FileSource<'a, R> {
    ghost Value = { ℕ };

    ghost view = { λ s. s.faults };
}

impl<'a, R: Files> FileSource<'a, R> {
    /// The file at this path, which isn't opened yet.
    pub fn of(rt: &'a R, path: String) -> Self
        ensures { result ≡ 0 }
    {
        FileSource {
            rt,
            path,
            file: None,
            faults: 0,
        }
    }

    fn try_read(&mut self, piece: &mut [u8]) -> io::Result<usize>
        ensures bound { ReadsAtMost result piece.new }
        ensures faults { self.new ≡ self.old }
    {
        let mut file = match self.file.take() {
            Some(file) => file,
            None => fs::open(self.rt, self.path.as_str())?,
        };
        let outcome = file.read(piece);
        self.file = Some(file);
        outcome
    }
}

impl<'a, R: Files> Source for FileSource<'a, R> {
    ghost left = { λ s. None };

    ghost faults = { λ s. s };

    fn faults(&self) -> u64 {
        self.faults
    }

    fn read(&mut self, piece: &mut [u8]) -> Result<usize, Failed> {
        match self.try_read(piece) {
            Ok(count) => Ok(count),
            Err(_) => {
                self.faults = self.faults.saturating_add(1);
                Err(Failed)
            }
        }
    }
}

/// A file that is written, made or emptied at its first write.
///
/// A failed opening or write, and a write that takes nothing of a piece that isn't empty, is counted. It tells no
/// content.
#[derive(Drop)]
pub struct FileSink<'a, R: Files> {
    rt: &'a R,
    path: String,
    file: Option<R::File>,
    faults: u64,
}

impl<'a, R: Files> Model for FileSink<'a, R> {
    ghost Value = { ℕ };

    ghost view = { λ s. s.faults };
}

impl<'a, R: Files> FileSink<'a, R> {
    /// The file at this path, which isn't opened yet.
    pub fn of(rt: &'a R, path: String) -> Self
        ensures { result ≡ 0 }
    {
        FileSink {
            rt,
            path,
            file: None,
            faults: 0,
        }
    }

    fn try_write(&mut self, piece: &[u8]) -> io::Result<usize>
        ensures bound { WritesAtMost result piece.now }
        ensures faults { self.new ≡ self.old }
    {
        let mut file = match self.file.take() {
            Some(file) => file,
            None => fs::create(self.rt, self.path.as_str())?,
        };
        let outcome = file.write(piece);
        self.file = Some(file);
        outcome
    }
}

impl<'a, R: Files> Sink for FileSink<'a, R> {
    ghost written = { λ s. None };

    ghost faults = { λ s. s };

    fn faults(&self) -> u64 {
        self.faults
    }

    fn write(&mut self, piece: &[u8]) -> Result<usize, Failed> {
        match self.try_write(piece) {
            Ok(count) if count > 0 || piece.is_empty() => Ok(count),
            _ => {
                self.faults = self.faults.saturating_add(1);
                Err(Failed)
            }
        }
    }
}

/// Standard output, written without a buffer.
///
/// A failed write, and one that takes nothing of a piece that isn't empty, is counted. It tells no content.
#[derive(Drop)]
pub struct OutSink<'a, R: Print> {
    rt: &'a R,
    faults: u64,
}

impl<'a, R: Print> Model for OutSink<'a, R> {
    ghost Value = { ℕ };

    ghost view = { λ s. s.faults };
}

impl<'a, R: Print> OutSink<'a, R> {
    /// Standard output of this runtime.
    pub fn of(rt: &'a R) -> Self
        ensures { result ≡ 0 }
    {
        OutSink { rt, faults: 0 }
    }
}

impl<'a, R: Print> Sink for OutSink<'a, R> {
    ghost written = { λ s. None };

    ghost faults = { λ s. s };

    fn faults(&self) -> u64 {
        self.faults
    }

    fn write(&mut self, piece: &[u8]) -> Result<usize, Failed> {
        match self.rt.write_some(piece) {
            Ok(count) if count > 0 || piece.is_empty() => Ok(count),
            _ => {
                self.faults = self.faults.saturating_add(1);
                Err(Failed)
            }
        }
    }
}
