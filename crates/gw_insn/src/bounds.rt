//! Numbers of classic BPF that the checks, the machine and compilers share.

ghost use Rattle.std.specs.Prelude.{◌≡◌};

/// How many scratch words there are, M[0] to M[15] (BPF_MEMWORDS of Linux's include/uapi/linux/bpf_common.h).
pub const SCRATCH_WORDS: usize = 16;

/// How many instructions a program may have (BPF_MAXINSNS of include/uapi/linux/bpf_common.h).
pub const MAX_INSNS: usize = 4096;

/// The first of the offsets that Linux counts as negative (SKF_AD_OFF of include/uapi/linux/filter.h).
pub const NEGATIVE_OFFSETS: u32 = 0xffff_f000;

/// The offset of the interface number (SKF_AD_OFF + SKF_AD_IFINDEX): a word load there is `ld ifidx`.
pub const INTERFACE: u32 = 0xffff_f008;

/// Each constant is the number of the header that it names. A law: it does nothing when run.
pub fn bounds_are_those_of_linux()
    ensures words { SCRATCH_WORDS ≡ 16 }
    ensures insns { MAX_INSNS ≡ 4096 }
    ensures negative { NEGATIVE_OFFSETS ≡ 0xfffff000 }
    ensures interface { INTERFACE ≡ 0xfffff008 }
{
    // The definitions of the crates above write these numbers themselves, and no constant.
}
