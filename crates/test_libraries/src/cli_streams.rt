//! Streams that fail, under `command`.

use crate::cli::{EMPTY_TABLE, FIRST_RUN, R, outcome_on};
use crate::streams::{Source, WHOLE};

/// The words of a command, with an input and the output that it gives.
type WholeRun = (&'static [&'static str], &'static str, &'static str);

const WHOLE_RUNS: [WholeRun; 9] = [
    (&[], FIRST_RUN, "pass 1\n"),
    (&["check"], "3,5 0 0 1,96 0 0 3,6 0 0 1,", "accepted 3\n"),
    (
        &["claims"],
        "98EEFF80080000000500000000000000\n",
        "128 0000000000000005\n",
    ),
    (
        &["claims", "--log"],
        "can0 18EEFF80#0500000000000000\n",
        "can0 128 0000000000000005\n",
    ),
    (&["table", "--frame", R], "default = \"pass\"\n", "pass\n"),
    (&["verdict", R], "1,6 0 0 7,", "pass 7\n"),
    (&["table"], "", EMPTY_TABLE),
    (
        &["asm"],
        "ld #ifidx\nret a\n",
        "2,32 0 0 4294963208,22 0 0 0,\n",
    ),
    (
        &["list"],
        "2,32 0 0 4294963208,22 0 0 0,",
        "l0:\tld ifidx\nl1:\tret a\n",
    ),
];

/// The one command that answers before its input has ended.
const REPLAY: WholeRun = (
    &["replay"],
    "limits 2 1 1 1\nprogram 1 1,6 0 0 1,\npublish\ntake 0 8CF0040008000000FFFFFFFFFFFFFFFF\nstep 0\nstep 0\n",
    "limits\nprogram 1\npublished 1\ntaken 0 1\nstepped\nfinished 0 1 1 1\n",
);

#[test]
fn breaking_readers(rt: HostRuntime) {
    for (words, input, _) in WHOLE_RUNS {
        let octets = input.as_bytes();
        for left in 0..=octets.len() {
            let input = Source::breaking(octets, left);
            let refused = outcome_on(&rt, rt.alloc(), words, input, WHOLE, WHOLE);
            assert!(rt; refused.is_failure(b"refused 96\n"));
        }
    }
}

/// A script that breaks off: the lines that came are answered, and then it is refused.
#[test]
fn breaking_script(rt: HostRuntime) {
    let (words, input, whole) = REPLAY;
    let octets = input.as_bytes();
    for left in 0..=octets.len() {
        let input = Source::breaking(octets, left);
        let refused = outcome_on(&rt, rt.alloc(), words, input, WHOLE, WHOLE);
        assert!(rt; refused.status == 1);
        let answers = refused.output.strip_suffix(b"refused 96\n");
        assert!(rt; answers.is_some_and(|answers| whole.as_bytes().starts_with(answers)));
    }
}

#[test]
fn filling_writers(rt: HostRuntime) {
    for (words, input, whole) in WHOLE_RUNS {
        for room in 0..whole.len() {
            let input = Source::new(input.as_bytes(), WHOLE);
            let cut = outcome_on(&rt, rt.alloc(), words, input, room, WHOLE);
            assert!(rt; cut.is_cut(&whole.as_bytes()[..room]));
        }
    }
}

#[test]
fn a_full_stderr(rt: HostRuntime) {
    let refused = outcome_on(&rt, rt.alloc(), &[], Source::new(b"8CG0", WHOLE), WHOLE, 3);
    assert!(rt; refused.is_failure(b"refused 97\n"));
}

#[test]
fn stumbling_reader(rt: HostRuntime) {
    for (words, input, _) in WHOLE_RUNS {
        let input = Source::stumbling(input.as_bytes());
        let refused = outcome_on(&rt, rt.alloc(), words, input, WHOLE, WHOLE);
        assert!(rt; refused.is_failure(b"refused 96\n"));
    }
}
