//! Readers that fail, give few bytes at a time, or never end.

use crate::layers::{has_features, point, seen, state};
use crate::read_layers::{reader, whole};
use file_core::read_edits;
use format_core::Limits;
use layer_core::Layer;
use row_core::{FromRead, ReadFault, Source, read_all};
use std::alloc::AllocGlobal;
use std::hash::RandomState;
use std::io::{Error, ErrorKind, Read, Result as IoResult};
use std::random::RandomSource;
use std::test::Fail;
use std::thread::Threads;

/// A reader that gives some bytes of a text with each read, and fails after a number of reads.
#[derive(Drop)]
pub(super) struct Device<'a> {
    text: &'a [u8],
    chunk: usize,
    good_reads: u32,
    /// The number of times that the next read was interrupted.
    interruptions: u32,
}

impl<'a> Device<'a> {
    pub(super) fn new(text: &'a [u8], chunk: usize, good_reads: u32) -> Device<'a> {
        Device {
            text,
            chunk,
            good_reads,
            interruptions: 0,
        }
    }
}

impl Read for Device<'_> {
    fn read(&mut self, buf: &mut [u8]) -> IoResult<usize> {
        // Each read is interrupted three times.
        if self.interruptions < 3 {
            self.interruptions += 1;
            return Err(Error::from(ErrorKind::Interrupted));
        }
        self.interruptions = 0;
        if self.good_reads == 0 {
            return Err(Error::from(ErrorKind::TimedOut));
        }
        self.good_reads -= 1;
        let count = self.chunk.min(self.text.len()).min(buf.len());
        let (now, later) = self.text.split_at(count);
        buf[..count].copy_from_slice(now);
        self.text = later;
        Ok(count)
    }
}

/// A reader that gives spaces without end.
#[derive(Drop)]
pub(super) struct Endless;

impl Read for Endless {
    fn read(&mut self, buf: &mut [u8]) -> IoResult<usize> {
        for byte in buf.iter_mut() {
            *byte = b' ';
        }
        Ok(buf.len())
    }
}

/// A reader that gives so many spaces.
#[derive(Drop)]
struct Spaces {
    left: usize,
}

impl Read for Spaces {
    fn read(&mut self, buf: &mut [u8]) -> IoResult<usize> {
        let count = self.left.min(buf.len());
        for byte in buf[..count].iter_mut() {
            *byte = b' ';
        }
        self.left -= count;
        Ok(count)
    }
}

const ONE_EDIT: &[u8] = b"op,layer,id,wkt\ninsert,left,a,POINT (0 0)\n";

const ONE_POINT: &[u8] = b"id,wkt\na,POINT (1 2)\n";

#[test]
fn failing_reads(rt: HostRuntime) -> Result<(), Fail> {
    for good_reads in [0, 1, 20] {
        let mut source = FromRead::new(Device::new(ONE_EDIT, 2, good_reads));
        let answer = read_edits(rt.alloc(), &mut source, whole()?);
        assert!(rt; answer.err() == Some(ReadFault::Io));
        assert!(rt; source.failed());
    }
    Ok(())
}

#[test]
fn interrupted_reads_are_tried_again(rt: HostRuntime) -> Result<(), Fail> {
    let mut source = FromRead::new(Device::new(ONE_EDIT, ONE_EDIT.len(), 2));
    let edits = read_edits(rt.alloc(), &mut source, whole()?)?;
    assert_eq!(rt; edits.len(), 1);
    assert!(rt; !source.failed());
    Ok(())
}

#[test]
fn one_byte_at_a_time(rt: HostRuntime) -> Result<(), Fail> {
    let mut source = FromRead::new(Device::new(ONE_POINT, 1, 1_000));
    let bytes = read_all(rt.alloc(), Limits::Boxes, &mut source)?;
    assert!(rt; bytes.as_slice() == ONE_POINT);
    assert!(rt; !source.failed());
    Ok(())
}

#[test]
fn lengths_that_are_wrong(rt: HostRuntime) -> Result<(), Fail> {
    for likely_len in [0, 1, ONE_POINT.len() - 1, ONE_POINT.len(), 1_000] {
        let device = Device::new(ONE_POINT, 4, 1_000);
        let mut source = FromRead::with_likely_len(device, likely_len);
        let bytes = read_all(rt.alloc(), Limits::Boxes, &mut source)?;
        assert!(rt; bytes.as_slice() == ONE_POINT);
    }
    Ok(())
}

/// As many bytes as a file of boxes has, and one more.
#[test]
fn more_than_a_file_of_boxes(rt: HostRuntime) -> Result<(), Fail> {
    let mut boxes = FromRead::new(Spaces { left: 134_217_729 });
    let answer = read_all(rt.alloc(), Limits::Boxes, &mut boxes);
    assert!(rt; answer.err() == Some(ReadFault::TooLong));
    let mut any = FromRead::new(Spaces { left: 134_217_729 });
    let bytes = read_all(rt.alloc(), Limits::Any, &mut any)?;
    assert_eq!(rt; bytes.len(), 134_217_729);
    Ok(())
}

/// The layer of this text, read one byte at a time.
fn layer_bytewise<R: Threads + Sync + RandomSource + AllocGlobal>(
    rt: &R,
    text: &[u8],
) -> Result<Layer, Fail> {
    let state = RandomState::new(rt)?;
    let mut source = FromRead::new(Device::new(text, 1, 1_000));
    Ok(reader(rt, whole()?, 1).read_layer(state, &mut source)?)
}

#[test]
fn layer_one_byte_at_a_time(rt: HostRuntime) -> Result<(), Fail> {
    let features = [("a", point(1, 2)?)];
    let layer = layer_bytewise(&rt, ONE_POINT)?;
    assert!(rt; seen(layer, |layer| has_features(layer, &features)));
    Ok(())
}
