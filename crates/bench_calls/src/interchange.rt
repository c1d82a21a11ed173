//! What the driver and the library hand each other, laid out as C lays it out.

ghost use Rattle.std.specs.Prelude.{◌≡◌};
ghost use Rattle.bench_calls.specs.Calls.{fields_of};

use gw_frame::RECORD_OCTETS;
use gw_insn::Raw;

/// `struct bpf_insn` of libpcap's `<pcap/bpf.h>`.
#[repr(C)]
#[derive(Clone, Copy)]
pub struct BpfInsn {
    pub code: u16,
    pub jt: u8,
    pub jf: u8,
    pub k: u32,
}

/// The octets of a record.
#[repr(C)]
#[derive(Clone, Copy)]
pub struct Record {
    pub octets: [u8; RECORD_OCTETS],
}

impl BpfInsn {
    /// The instruction with these fields.
    pub fn new(raw: Raw) -> BpfInsn
        ensures { fields_of result ≡ raw }
    {
        let Raw { code, jt, jf, k } = raw;
        BpfInsn { code, jt, jf, k }
    }

    /// The fields of the instruction.
    pub fn raw(self) -> Raw
        ensures { result ≡ fields_of self }
    {
        let BpfInsn { code, jt, jf, k } = self;
        Raw { code, jt, jf, k }
    }
}
