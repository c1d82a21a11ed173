//! Scripts in pieces, and streams that fail.

use crate::streams::{Sink, Source, WHOLE};
use gw_io::Tried;
use gw_replay::{ReplayFault, replay};
use std::alloc::Global;
use std::io;
use std::io::Read;

/// A lane of one copy: the second copy is lost.
const FULL_LANE: &str =
    "limits 3 1 4 10\nprogram 1 1,6 0 0 1,\npublish\ntake 0 8CF0040008000000FFFFFFFFFFFFFFFF\nstep 0\nstep 0\nstep 0\n\
take 0 8CF0040008000000FFFFFFFFFFFFFFFF\nstep 0\nstep 0\nstep 0\nsend 1 0\ntake 0 8CF0040008000000FFFFFFFFFFFFFFFF\nstep 0\n\
step 0\nstep 0\n\
ledger 0\nsend 1 0\nsend 1 0\nsend 1 1\n";

const FULL_LANE_ANSWERS: &str =
    "limits\nprogram 1\npublished 1\ntaken 0 1\nstepped\nplaced 1\nfinished 0 1 1 1\n\
taken 1 1\nstepped\nlost 1\nfinished 1 1 1 -\nsent 0 0 8cf0040008000000ffffffffffffffff\ntaken 2 1\nstepped\nplaced 1\n\
finished 2 1 1 1\n\
ledger 3 0 3 2 1\nsent 0 2 8cf0040008000000ffffffffffffffff\nempty\nrefused 72\n";

/// A replacement while a frame is unfinished.
const REPLACEMENT: &str = "limits 3 4 2 10\nprogram 1 1,6 0 0 1,\nprogram 2 1,6 0 0 1,\npublish\n\
take 0 8CF0040008000000FFFFFFFFFFFFFFFF\nstep 0\nprogram 1 1,6 0 0 0,\nprogram 2 1,6 0 0 0,\npublish\nstep 0\nstep 0\nstep 0\n\
take 0 8CF0040008000000FFFFFFFFFFFFFFFF\nstep 0\nstep 0\npublish\nstep 0\ntake 5 8CF0040008000000FFFFFFFFFFFFFFFF\n";

const REPLACEMENT_ANSWERS: &str =
    "limits\nprogram 1\nprogram 2\npublished 1\ntaken 0 1\nstepped\nprogram 1\nprogram 2\n\
published 2\nplaced 1\nstepped\nfinished 0 1 1,2 1,2\ntaken 1 2\nstepped\nfinished 1 2 - -\nrefused 75\nrefused 74\nrefused 72\n";

/// A local frame is finished at once.
const LOCAL: &str =
    "limits 2 4 4 10\nprogram 1 1,6 0 0 1,\npublish\ntake 0 98EEFF80080000000500000000000000\nstep 0\nstep 0\n\
take 0 98EF803408000000FFFFFFFFFFFFFFFF\nstep 0\ntake 1 98EF803408000000FFFFFFFFFFFFFFFF\n\
take 1 98EF803408000000FFFFFFFFFFFFFFFF\n\
step 1\nledger 0\n";

const LOCAL_ANSWERS: &str =
    "limits\nprogram 1\npublished 1\ntaken 0 1\nstepped\nfinished 0 1 1 1\ntaken 1 1 local\nrefused 74\n\
taken 0 1\nrefused 73\nfinished 0 1 - -\nledger 2 1 1 1 0\n";

const REFUSALS: &str =
    "step 0\nlimits 1 1 1 1\nlimits 2 1 1 1\nprogram 1 1,6 0 0 1,\nprogram 1 1,6 0 0 1,\n\
take 0 8CF0040008000000FFFFFFFFFFFFFFFF\nstep 0\ntake 0 8CF0040008000000FFFFFFFFFFFFFFFF\nbogus\n";

const REFUSALS_ANSWERS: &str =
    "refused 98\nrefused 70\nlimits\nprogram 1\nrefused 60\ntaken 0 0\nfinished 0 0 - -\nrefused 76\nrefused 98\n";

/// The text `default = "pass"`.
const TABLE: &str = "limits 2 4 4 10\ntable 1 64656661756c74203d20227061737322\npublish\n\
take 0 8CF0040008000000FFFFFFFFFFFFFFFF\nstep 0\nstep 0\nstep 0\nstep 0\nstep 0\nstep 0\nstep 0\nstep 0\nstep 0\nstep 0\nstep 0\n\
step 0\nstep 0\nstep 0\nstep 0\n";

const TABLE_ANSWERS: &str =
    "limits\ntable 1\npublished 1\ntaken 0 1\nstepped\nstepped\nstepped\nstepped\nstepped\nstepped\nstepped\n\
stepped\nstepped\nstepped\nstepped\nstepped\nstepped\nstepped\nfinished 0 1 1 1\n";

/// A program that tells the taking port.
const TAKING_PORT: &str = "limits 3 4 4 10\nprogram 2 2,32 0 0 4294963208,22 0 0 0,\npublish\n\
take 0 8CF0040008000000FFFFFFFFFFFFFFFF\nstep 0\nstep 0\nstep 0\ntake 1 8CF0040008000000FFFFFFFFFFFFFFFF\n\
step 1\nstep 1\nstep 1\nstep 1\nsend 2 1\n";

const TAKING_PORT_ANSWERS: &str =
    "limits\nprogram 2\npublished 1\ntaken 0 1\nstepped\nstepped\nfinished 0 1 - -\ntaken 0 1\n\
stepped\nstepped\nstepped\nfinished 0 1 2 2\nsent 1 0 8cf0040008000000ffffffffffffffff\n";

/// What each command is refused for, in its order.
const ORDER: &str =
    "# a comment, and an empty line\n\nlimits 256 1 1 1\r\nlimits 2  1 1\nlimits 2 1 1 00000000001\nlimits 2 1 1 4294967296\n\
limits 2 1 1 4294967295 \n limits 2 1 1 1\nlimits 2 1 1\nlimits 2 1 1 0000000001\nlimits 2 1 1 1\npublish now\npublish \n\
program 1 \n\
program 1\nprogram 1  1,6 0 0 1,\nprogram 256 1,6 0 0 1,\nprogram 9 1,6 0 0 1,\nprogram 1 2,6 0 0 1,\nprogram 1 1,6 0 0 1,6\n\
program 1 2,5 0 0 1,6 0 0 0,\nprogram 1 4,21 0 1 0,2 0 0 3,96 0 0 3,22 0 0 0,\ntable 1 4g\ntable 1 ff\ntable 1 783d31\n\
table 1 5b5b72756c655d5d0a616374696f6e3d2270617373220a736f757263653d323536\ntable 9 20\ntable 1 20 20\npublish\npublish\n\
take 0 8CG0\ntake 0 8CF\ntake 0 8CF00400000000\ntake 0 8CF0040008000000FFFFFFFFFFFFFFFF00\ntake 2 8CF00400\n\
take 2 8CF0040000000000\ntake 0\nstep 0 \nstep 2\nsend 0\nsend 0 0\nsend 0 1\nledger 2\nledger 1\nLEDGER 1\nstep\t0";

const ORDER_ANSWERS: &str =
    "refused 70\nrefused 98\nrefused 98\nrefused 98\nrefused 98\nrefused 98\nrefused 98\nlimits\nrefused 98\n\
refused 98\nrefused 98\nrefused 98\nrefused 98\nrefused 10\nrefused 98\nprogram 9\nrefused 11 1\nrefused 12\nrefused 26 0\n\
refused 29 2 3\nrefused 97\nrefused 50\nrefused 51\nrefused 53 0\nrefused 60\nrefused 98\nrefused 72\npublished 1\nrefused 97\n\
refused 97\nrefused 1\nrefused 2\nrefused 1\nrefused 72\nrefused 98\nrefused 98\nrefused 72\nrefused 98\nrefused 72\nempty\n\
refused 72\nledger 0 0 0 0 0\nrefused 98\nrefused 98\n";

const SCRIPTS: [(&str, &str); 7] = [
    (FULL_LANE, FULL_LANE_ANSWERS),
    (REPLACEMENT, REPLACEMENT_ANSWERS),
    (LOCAL, LOCAL_ANSWERS),
    (REFUSALS, REFUSALS_ANSWERS),
    (TABLE, TABLE_ANSWERS),
    (TAKING_PORT, TAKING_PORT_ANSWERS),
    (ORDER, ORDER_ANSWERS),
];

/// A reader that gives one octet for ever.
#[derive(Drop)]
struct Endless(u8);

impl Read for Endless {
    fn read(&mut self, buf: &mut [u8]) -> io::Result<usize> {
        if buf.is_empty() {
            return Ok(0);
        }
        buf[0] = self.0;
        Ok(1)
    }
}

/// What became of a script.
#[derive(Drop)]
struct Replayed {
    ended: Result<bool, ReplayFault>,
    /// Whether a read failed.
    has_failed: bool,
    /// What was written.
    taken: Vec<u8>,
}

/// What becomes of a script, with an output that takes so many octets a call and so many in all.
fn replay_on(alloc: Global, script: Source<'_>, piece: usize, room: usize) -> Replayed {
    let mut input = Tried::new(script);
    let mut output = Sink::new(alloc, piece, room);
    let ended = replay(alloc, &mut input, &mut Tried::new(&mut output));
    Replayed {
        ended,
        has_failed: input.failed(),
        taken: output.taken,
    }
}

#[test]
fn pieces_of_every_length(rt: HostRuntime) {
    for piece in 1..40 {
        for (script, expected) in SCRIPTS {
            let script = Source::new(script.as_bytes(), piece);
            let found = replay_on(rt.alloc(), script, piece, expected.len());
            assert!(rt; found.ended.is_ok());
            assert!(rt; found.taken.as_slice() == expected.as_bytes());
        }
    }
}

#[test]
fn breaking_readers(rt: HostRuntime) {
    for left in 0..=FULL_LANE.len() {
        let script = Source::breaking(FULL_LANE.as_bytes(), left);
        let found = replay_on(rt.alloc(), script, 1, WHOLE);
        assert!(rt; found.ended == Err(ReplayFault::ReadFault));
        assert!(rt; found.has_failed);
        assert!(rt;
            FULL_LANE_ANSWERS
                .as_bytes()
                .starts_with(found.taken.as_slice())
        );
    }
}

#[test]
fn filling_writers(rt: HostRuntime) {
    for room in 0..FULL_LANE_ANSWERS.len() {
        let script = Source::new(FULL_LANE.as_bytes(), WHOLE);
        let found = replay_on(rt.alloc(), script, 1, room);
        assert!(rt; found.ended == Err(ReplayFault::WriteFault));
        assert!(rt; found.taken.as_slice() == &FULL_LANE_ANSWERS.as_bytes()[..room]);
    }
}

#[test]
fn an_endless_reader(rt: HostRuntime) {
    let alloc = rt.alloc();
    let mut output = Vec::new(alloc);
    let mut input = Tried::new(Endless(b'#'));
    let ended = replay(alloc, &mut input, &mut Tried::new(&mut output));
    assert!(rt; ended == Err(ReplayFault::ReadFault));
    assert!(rt; input.reads() == 16_777_216);
    assert!(rt; !input.failed());
    assert!(rt; output.is_empty());
}
