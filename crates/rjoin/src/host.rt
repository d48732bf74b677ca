//! The files of the host.

use crate::storing;
use command_core::{Inputs, NotOpened, NotStored, Outputs, is_standard_input};
use row_core::FromRead;
use std::fs::OpenFile;
use std::io::{Input, Read};
use std::rt::Files;
use std::{fs, io};

/// The files of the host. Nothing is known of them before they are read.
#[derive(Drop)]
pub struct HostFiles<'a, R> {
    pub rt: &'a R,
}

/// The file at a path of the host, or standard input.
#[derive(Drop)]
pub enum HostFile<F, S> {
    Named(F),
    StandardInput(S),
}

impl<F: Read, S: Read> Read for HostFile<F, S> {
    ghost use Rattle.rjoin.specs.HostFiles.{bytes_left};

    // The remaining bytes of the file or of standard input.
    ghost remaining = { bytes_left F.remaining S.remaining };

    fn read(&mut self, buffer: &mut [u8]) -> io::Result<usize> {
        match self {
            HostFile::Named(file) => file.read(buffer),
            HostFile::StandardInput(reader) => reader.read(buffer),
        }
    }
}

impl<'a, R: Files + Input> Inputs for HostFiles<'a, R> {
    type File = FromRead<HostFile<R::File, R::Reader>>;

    fn open(&self, path: &str) -> Result<FromRead<HostFile<R::File, R::Reader>>, NotOpened> {
        if is_standard_input(path) {
            return Ok(FromRead::new(HostFile::StandardInput(self.rt.reader())));
        }
        match fs::open(self.rt, path) {
            Ok(file) => {
                let len = likely_len(&file);
                Ok(FromRead::with_likely_len(HostFile::Named(file), len))
            }
            Err(_) => Err(NotOpened),
        }
    }
}

impl<'a, R: Files + AllocGlobal> Outputs for HostFiles<'a, R> {
    fn store(&mut self, path: &str, bytes: &[u8]) -> Result<(), NotStored> {
        match storing::store(self.rt, path, bytes) {
            Ok(()) => Ok(()),
            Err(_) => Err(NotStored),
        }
    }
}

/// The length of a file in bytes as the host reports it, or 0 if it reports none.
fn likely_len<F: OpenFile>(file: &F) -> usize {
    match file.metadata() {
        Ok(metadata) => metadata.len() as usize,
        Err(_) => 0,
    }
}
