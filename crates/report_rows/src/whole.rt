//! Whole reports, read and written back.

use crate::examples::{ARBITER, LOCK, RING, TOGGLE};
use crate::texts::{EVERY_LINE, PROVED, REACHED, read};
use ketch_base::OutOfMemory;
use report_text::text_of;
use std::alloc::Global;

fn is_read_and_written(alloc: Global, text: &[u8]) -> Result<bool, OutOfMemory> {
    match read(alloc, text) {
        Ok(report) => {
            let written = text_of(alloc, &report)?;
            Ok(written.as_slice() == text)
        }
        Err(_) => Ok(false),
    }
}

const TEXTS: [&[u8]; 7] = [REACHED, PROVED, EVERY_LINE, TOGGLE, RING, LOCK, ARBITER];

#[test]
fn reports_are_read_and_written(rt: HostRuntime) {
    for (place, text) in TEXTS.iter().enumerate() {
        assert!(rt;
            is_read_and_written(rt.alloc(), text) == Ok(true),
            "text {place}"
        );
    }
}
