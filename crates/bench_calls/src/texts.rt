//! The assembler.

ghost use Rattle.std.specs.Prelude.{◌≡◌, ◌≢◌};
ghost use Rattle.bench_calls.specs.Calls.{IsAssembled};

use gw_text::assemble;
use std::alloc::Global;

/// Assembles a text, and answers how many instructions it has. 0: it has none, it is refused or no UTF-8, or memory was
/// refused.
pub fn count_assembled(alloc: Global, text: &[u8]) -> usize
    ensures { result ≢ 0 → IsAssembled text.now result }
{
    let Ok(text) = str::from_utf8(text) else {
        return 0;
    };
    match assemble(alloc, text) {
        Ok(code) => code.len(),
        Err(_) => 0,
    }
}
