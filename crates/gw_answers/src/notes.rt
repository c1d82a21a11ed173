//! What a person should know of a frame or of a file.

use crate::explanation::RefusedFile;
use crate::refusal::Refusal;
use gw_frame::Frame;
use gw_ident::{EXTENDED_FLAG, GREATEST_EXTENDED, GREATEST_STANDARD};
use gw_io::Tried;
use std::io;
use std::io::Write;

/// Whether the identifier word has bits above the eleven of a standard frame and no flag of an extended one: mostly an
/// identifier that was copied from a bus monitor without the flag.
fn lacks_flag(frame: &Frame) -> bool {
    let word = frame.id().word();
    word & EXTENDED_FLAG == 0 && word & GREATEST_EXTENDED > GREATEST_STANDARD
}

/// Tells that a record is that of no extended frame though its identifier is as long as one's.
pub fn note_standard_identifier<F: Write>(frame: &Frame, faults: &mut Tried<F>) {
    if lacks_flag(frame) {
        let word = frame.id().word();
        let meant = word | EXTENDED_FLAG;
        let _ = writeln!(
            faults,
            "gw: the identifier {word:08X} has more than 11 bits and lacks the flag 80000000, so this is no extended frame and a \
            table judges it by `other`; {meant:08X} may be meant"
        );
    }
}

/// The same of a line of claims.
pub fn note_uncounted<F: Write>(frame: &Frame, line: usize, faults: &mut Tried<F>) {
    if lacks_flag(frame) {
        let word = frame.id().word();
        let meant = word | EXTENDED_FLAG;
        let _ = writeln!(
            faults,
            "gw: line {line}: the identifier {word:08X} has more than 11 bits and lacks the flag 80000000, so it does not count; \
            {meant:08X} may be meant"
        );
    }
}

/// Tells why a file cannot be opened or read.
pub fn note_unread<F: Write>(file: &str, why: &io::Error, faults: &mut Tried<F>) {
    let _ = writeln!(faults, "gw: {file}: {why}");
}

/// Tells which file is refused, before its refusal.
pub fn note_file<F: Write>(file: &str, refusal: &Refusal, faults: &mut Tried<F>) {
    let refused = RefusedFile { file, refusal };
    let _ = writeln!(faults, "gw: the file {refused} is refused:");
}
