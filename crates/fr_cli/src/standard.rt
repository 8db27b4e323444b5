//! Standard streams that were closed when the program started. The system gives the lowest free descriptor to the next
//! file that is opened, so replies could go to a data file.

use std::fs::OpenOptions;
use std::os::fd::AsRawFd;
use std::rt::Files;

/// The descriptor of standard input, which is the first of the standard streams.
const STANDARD_INPUT: i32 = 0;

/// The descriptor of standard error, which is the last of the standard streams.
const LAST_STANDARD: i32 = 2;

/// Files in the places of the standard streams that were closed (project-defined). Reading from standard input and
/// writing to the others fail there, as they do where a stream is closed. The files stay open while this lives.
#[derive(Drop)]
pub struct HeldStandard<F> {
    // These are kept alone for their descriptors.
    input: Option<F>,
    output: Option<F>,
    errors: Option<F>,
}

/// Returns a file opened in this way, if its descriptor is at most `last`.
fn opened_up_to<R: Files>(rt: &R, how: &OpenOptions, last: i32) -> Option<R::File>
where
    R::File: AsRawFd,
{
    match how.open(rt, "/dev/null") {
        Ok(file) if file.as_raw_fd() <= last => Some(file),
        _ => None,
    }
}

/// Opens a file at the descriptor of each standard stream that is closed (project-defined). A program does so before it
/// opens any other file.
pub fn hold_standard<R: Files>(rt: &R) -> HeldStandard<R::File>
where
    R::File: AsRawFd,
{
    let (mut for_writing, mut for_reading) = (OpenOptions::new(), OpenOptions::new());
    for_writing.write(true);
    for_reading.read(true);
    let input = opened_up_to(rt, &for_writing, STANDARD_INPUT);
    let output = opened_up_to(rt, &for_reading, LAST_STANDARD);
    let errors = opened_up_to(rt, &for_reading, LAST_STANDARD);
    HeldStandard {
        input,
        output,
        errors,
    }
}
