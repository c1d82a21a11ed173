//! Whole texts, written.

ghost use Rattle.std.specs.Prelude.{◌≡◌, true, false, OnOk, OnErr};
ghost use Rattle.std.specs.Io.KnownBytes.{Appends};
ghost use Rattle.gw_io.specs.Tries.{inner_of, has_failed};
ghost use Rattle.gw_io.specs.Written.{WritesPart};

use crate::tried::Tried;
use std::io::Write;

/// A write failed.
#[derive(Clone, Copy, PartialEq, Eq, Debug)]
pub struct WriteFault;

/// Writes all octets, in as many calls as the writer needs. After a failed write, a beginning of them was written.
pub fn write_all<W: Write>(writer: &mut Tried<W>, octets: &[u8]) -> Result<(), WriteFault>
    requires { has_failed writer.old ≡ false }
    ensures written { OnOk result (Appends (W.contents (inner_of writer.old)) (W.contents (inner_of writer.new)) octets.now) }
    ensures part { OnErr result (WritesPart (W.contents (inner_of writer.old)) (W.contents (inner_of writer.new)) octets.now) }
    ensures whole { OnOk result (has_failed writer.new ≡ false) }
    ensures failed { OnErr result (has_failed writer.new ≡ true) }
{
    let mut at = 0;
    while at < octets.len() {
        match writer.write(&octets[at..]) {
            Ok(0) | Err(_) => return Err(WriteFault),
            Ok(n) => at += n,
        }
    }
    Ok(())
}
