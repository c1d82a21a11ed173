//! Words that `command` and `run_command` leave to each other.

use crate::cli::{HEADER, outcome_of, run_outcome_on};
use crate::streams::{Source, WHOLE};

#[test]
fn words_of_run(rt: HostRuntime) {
    let wrong: [&[&str]; 2] = [
        &["run"],
        &["run", "--ports", "2", "--program", "1,6 0 0 1,"],
    ];
    for words in wrong {
        let refused = outcome_of(&rt, rt.alloc(), words, b"1,6 0 0 1,");
        assert!(rt; refused.status == 2, "on {words:?}");
        assert!(rt; refused.output.is_empty() && !refused.stderr.is_empty());
    }
}

#[test]
fn words_of_another_command(rt: HostRuntime) {
    let refused = run_outcome_on(
        &rt,
        rt.alloc(),
        &["check"],
        Source::new(HEADER, WHOLE),
        WHOLE,
    );
    assert!(rt; refused.status == 2);
    assert!(rt; refused.output.is_empty());
    let told = str::from_utf8(refused.stderr.as_slice()).unwrap_or("");
    assert!(rt; told.contains("not the command `run`"), "{told}");
}
