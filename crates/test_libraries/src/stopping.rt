//! A run at ports that stop while frames of their trace wait for them.

use crate::cli::{SPEED, trace_of};
use crate::streams::{Sink, Source, WHOLE};
use gw_answers::PolicySource;
use gw_io::Tried;
use gw_ledger::Limits;
use gw_run::{NoObserver, Shown, Taking, forward};
use std::test::Fail;

/// More frames than may wait for two ports.
const FRAMES: usize = 20_000;

#[test]
fn a_trace_is_read_past_ports_that_stopped(rt: HostRuntime) -> Result<(), Fail> {
    let alloc = rt.alloc();
    let mut records = Vec::new(alloc);
    for _record in 0..FRAMES {
        records.push(SPEED)?;
    }
    let trace = trace_of(alloc, records.as_slice())?;
    let mut output = Sink::new(alloc, WHOLE, WHOLE);
    let mut stderr = Sink::new(alloc, WHOLE, WHOLE);
    let status = forward(
        &rt,
        alloc,
        Limits::new(2, 1, 1, 1)?,
        &[PolicySource::Opening, PolicySource::Opening],
        &[Vec::new(alloc), Vec::new(alloc)],
        &Taking::InTurn,
        Shown::Lines {
            policies: false,
            lanes: false,
        },
        &NoObserver,
        &mut Tried::new(Source::new(trace.as_slice(), WHOLE)),
        &mut Tried::new(&mut output),
        &mut Tried::new(&mut stderr),
    );
    assert!(rt; status == 1);
    assert!(rt; output.taken.as_slice() == b"refused 76\n".as_slice());
    Ok(())
}
