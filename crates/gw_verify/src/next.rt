//! Where instructions lead.

ghost use Rattle.std.specs.Prelude.{◌≡◌};
ghost use Rattle.gw_insn.specs.Form.{form};
ghost use Rattle.gw_verify.specs.Next.{next_of};

use gw_insn::Insn;

/// Where an instruction leads.
#[derive(Clone, Copy)]
pub enum Next {
    /// A return: nowhere.
    Nowhere,
    /// To the instruction after it.
    Following,
    /// On past so many instructions.
    Past(u32),
    /// On past so many instructions where a test holds, and past so many where it does not.
    Either(u8, u8),
}

/// Where the instruction leads.
pub fn next_of(insn: Insn) -> Next
    ensures { result ≡ next_of (form insn) }
{
    match insn {
        Insn::ReturnConstant(_) | Insn::ReturnA => Next::Nowhere,
        Insn::Jump(k) => Next::Past(k),
        Insn::JumpEqualConstant(jt, jf, _) => Next::Either(jt, jf),
        Insn::JumpEqualIndex(jt, jf) => Next::Either(jt, jf),
        Insn::JumpGreaterConstant(jt, jf, _) => Next::Either(jt, jf),
        Insn::JumpGreaterIndex(jt, jf) => Next::Either(jt, jf),
        Insn::JumpAtLeastConstant(jt, jf, _) => Next::Either(jt, jf),
        Insn::JumpAtLeastIndex(jt, jf) => Next::Either(jt, jf),
        Insn::JumpSharesBitConstant(jt, jf, _) => Next::Either(jt, jf),
        Insn::JumpSharesBitIndex(jt, jf) => Next::Either(jt, jf),
        _ => Next::Following,
    }
}
