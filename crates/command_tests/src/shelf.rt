//! Files in memory.

use command_core::{Inputs, NotOpened, NotStored, Outputs};
use row_core::FromRead;

/// Files by their paths, beside which none can be stored.
#[derive(Drop)]
pub struct Shelf<'a> {
    pub files: &'a [(&'a str, &'a str)],
}

impl<'a> Inputs for Shelf<'a> {
    type File = FromRead<&'a [u8]>;

    fn open(&self, path: &str) -> Result<FromRead<&'a [u8]>, NotOpened> {
        for (name, text) in self.files {
            if *name == path {
                return Ok(FromRead::new(text.as_bytes()));
            }
        }
        Err(NotOpened)
    }
}

impl Outputs for Shelf<'_> {
    fn store(&mut self, _path: &str, _bytes: &[u8]) -> Result<(), NotStored> {
        Err(NotStored)
    }
}
