//! A reader that gives few bytes at a time, and a writer that takes few and is interrupted before
//! it takes any. Each fails after some bytes, or does not.

use arrayvec::ArrayVec;
use std::io;
use std::io::{Error, ErrorKind, Read, Write};
use text::answer::Answered;
use text::stream::{Failure, answer};

// The bytes that are left, the most that one read gives, and whether it fails behind them.
#[derive(Drop)]
struct ShortReader<'a> {
    rest: &'a [u8],
    most: usize,
    fails: bool,
}

impl Read for ShortReader<'_> {
    fn read(&mut self, buffer: &mut [u8]) -> io::Result<usize> {
        if self.fails && self.rest.is_empty() {
            return Err(Error::from(ErrorKind::ConnectionReset));
        }
        let n = self.most.min(self.rest.len()).min(buffer.len());
        let (front, rest) = self.rest.split_at(n);
        buffer[..n].copy_from_slice(front);
        self.rest = rest;
        Ok(n)
    }
}

// The bytes that were taken, the most that one write takes, how many are taken before it fails, and
// whether the next write is interrupted: each other one is.
#[derive(Drop)]
struct ShortWriter {
    taken: ArrayVec<u8, 64>,
    most: usize,
    room: usize,
    interrupted: bool,
}

impl Write for ShortWriter {
    fn write(&mut self, bytes: &[u8]) -> io::Result<usize> {
        let interrupted = self.interrupted;
        self.interrupted = !interrupted;
        if interrupted {
            return Err(Error::from(ErrorKind::Interrupted));
        }
        let room = self.room.min(64).saturating_sub(self.taken.len());
        if room == 0 {
            return Err(Error::from(ErrorKind::StorageFull));
        }
        let n = self.most.min(bytes.len()).min(room);
        let _fits = self.taken.try_extend_from_slice(&bytes[..n]);
        Ok(n)
    }

    fn flush(&mut self) -> io::Result<()> {
        Ok(())
    }
}

fn writer_with(room: usize) -> ShortWriter {
    ShortWriter {
        taken: ArrayVec::new(),
        most: 7,
        room,
        interrupted: true,
    }
}

fn reader_of(input: &[u8], fails: bool) -> ShortReader<'_> {
    ShortReader {
        rest: input,
        most: 1000,
        fails,
    }
}

// Whether a text is written for an input, whole, through short reads and short writes, and is told
// as that of a total or as one that refuses a line.
fn written(input: &[u8], text: &[u8]) -> bool {
    let mut writer = writer_with(64);
    let told = match answer(&mut reader_of(input, false), &mut writer) {
        Ok(Answered::Total) => !text.starts_with(b"refused"),
        Ok(Answered::Refused(_)) => text.starts_with(b"refused"),
        Err(_) => false,
    };
    told && writer.taken.as_slice() == text
}

// Whether a reader that fails behind half of the input is told of, and nothing is written.
fn input_fails(input: &[u8]) -> bool {
    let mut writer = writer_with(64);
    let half = &input[..input.len() / 2];
    match answer(&mut reader_of(half, true), &mut writer) {
        Err(Failure::Input(error)) => {
            error.kind() == ErrorKind::ConnectionReset && writer.taken.is_empty()
        }
        Err(Failure::Output(_)) | Ok(_) => false,
    }
}

// Whether a writer that fails behind half of the text is told of, and has taken that half.
fn output_fails(input: &[u8], text: &[u8]) -> bool {
    let half = &text[..text.len() / 2];
    let mut writer = writer_with(half.len());
    match answer(&mut reader_of(input, false), &mut writer) {
        Err(Failure::Output(error)) => {
            error.kind() == ErrorKind::StorageFull && writer.taken.as_slice() == half
        }
        Err(Failure::Input(_)) | Ok(_) => false,
    }
}

// Whether a text is that of an input, by way of readers and writers, and each end's failure is
// told.
pub fn agrees(input: &[u8], text: &[u8]) -> bool {
    written(input, text) && input_fails(input) && output_fails(input, text)
}
