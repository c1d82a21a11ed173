//! The command `run` under streams that fail.

use crate::cli::{SPEED, TWO_PORTS, run_outcome_on, trace_of};
use crate::streams::{Source, WHOLE};
use std::test::Fail;

#[test]
fn breaking_readers(rt: HostRuntime) -> Result<(), Fail> {
    let alloc = rt.alloc();
    let trace = trace_of(alloc, &[SPEED])?;
    for left in 0..=trace.len() {
        let input = Source::breaking(trace.as_slice(), left);
        let refused = run_outcome_on(&rt, alloc, TWO_PORTS, input, WHOLE);
        assert!(rt; refused.is_failure(b"refused 96\n"));
    }
    Ok(())
}

/// What is told of a trace whose frames are dealt in turn, where the output takes no more.
const TOLD: &[u8] =
    b"gw: frame i of the trace was taken at port i mod 2, whatever interface it came from\n\
    gw: the output could not be written\n";

#[test]
fn filling_writers(rt: HostRuntime) -> Result<(), Fail> {
    let alloc = rt.alloc();
    let trace = trace_of(alloc, &[SPEED])?;
    let whole = b"port 0 taken 1 local 0 allowed 1\nport 1 taken 0 local 0 allowed 0\n".as_slice();
    for room in [0, 1, 32, 33, whole.len() - 1] {
        let input = Source::new(trace.as_slice(), WHOLE);
        let cut = run_outcome_on(&rt, alloc, TWO_PORTS, input, room);
        assert!(rt; cut.is_failure(&whole[..room]));
        assert!(rt; cut.stderr.as_slice() == TOLD);
    }
    Ok(())
}
