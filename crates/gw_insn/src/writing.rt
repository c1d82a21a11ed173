//! Listings of instructions, written.

ghost use Rattle.std.specs.Prelude.{◌≡◌, ◌≤◌, IfOk, length};
ghost use Rattle.gw_insn.specs.Listing.{IsListing};
ghost use Rattle.gw_insn.specs.Spelling.{plain_listing};

use crate::insn::Raw;
use std::alloc::{AllocError, Global};

/// A listing of the instructions, at most 65535, in ASCII: their count and a comma, then the `code`, `jt`, `jf` and
/// `k` of each one in decimal, with one space between and a comma after. There are no leading zeros and no line end.
/// It is the line that Linux's `bpf_asm` prints (Documentation/networking/filter), without its end.
pub fn write_listing(alloc: Global, code: &[Raw]) -> Result<Vec<u8>, AllocError>
    requires { length code.now ≤ 65535 }
    ensures spelling { IfOk result (λ text. text.items ≡ plain_listing code.now) }
    ensures listing { IfOk result (λ text. IsListing text.items code.now) }
{
    let mut text = String::new(alloc);
    write!(text, "{},", code.len())?;
    for raw in code {
        let Raw { code, jt, jf, k } = *raw;
        write!(text, "{code} {jt} {jf} {k},")?;
    }
    Ok(text.into_bytes())
}
