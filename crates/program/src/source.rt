// Where a program's bytes come from: standard input, or a file.
use crate::Console;
use std::fs::File;
use std::io;
use std::io::{Read, Stdin};

#[derive(Drop)]
pub enum Source {
    Standard(Stdin),
    File(File),
}

// .. and what it is called where a read of it fails.
#[derive(Drop)]
pub struct Input<'a> {
    pub source: Source,
    pub name: &'a [u8],
}

impl Read for Source {
    fn read(&mut self, piece: &mut [u8]) -> io::Result<usize> {
        match self {
            Source::Standard(input) => input.read(piece),
            Source::File(file) => file.read(piece),
        }
    }
}

// Opens a file to read. Its name has to be text, UTF-8: the library opens no other.
pub fn open_source(console: &Console<'_>, path: &[u8]) -> io::Result<Source> {
    match std::str::from_utf8(path) {
        Ok(path) => Ok(Source::File(File::open(console.rt, path)?)),
        Err(_) => Err(io::Error::new(io::ErrorKind::InvalidFilename, "The name is not UTF-8")),
    }
}
