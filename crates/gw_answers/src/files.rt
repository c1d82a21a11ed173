//! The files of policies.

ghost use Rattle.std.specs.Prelude.{IfErr};
ghost use Rattle.gw_answers.specs.Policies.{RefusesFile};

use crate::notes::note_unread;
use crate::refusal::Refusal;
use crate::streams::read_input;
use gw_io::Tried;
use std::alloc::Global;
use std::fs;
use std::io::Write;
use std::rt::Files;

/// What a file holds: 96 where it cannot be opened or a read failed, 98 for more than 1048576 octets, 100 for want of memory. A
/// person is told why it cannot be opened or read.
pub fn read_file<R: Files, F: Write>(
    rt: &R,
    alloc: Global,
    path: &str,
    faults: &mut Tried<F>,
) -> Result<Vec<u8>, Refusal>
    ensures { IfErr result RefusesFile }
{
    match fs::open(rt, path) {
        Ok(file) => {
            let mut reader = Tried::new(file);
            let found = read_input(alloc, &mut reader);
            if let Some(why) = reader.error() {
                note_unread(path, &why, faults);
            }
            found
        }
        Err(why) => {
            note_unread(path, &why, faults);
            Err(Refusal::ReadFault)
        }
    }
}
