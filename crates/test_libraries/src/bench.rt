//! What the benchmark times, with ample memory, which no contract can ask for.

use bench_calls::{BpfInsn, Record, judge_by_rules, run_code, write_compiled};

/// EEC1 (PGN 61444) from the engine, and a request to it (PGN 59904).
const RECORDS: [Record; 2] = [
    Record {
        octets: [0x8c, 0xf0, 4, 0, 8, 0, 0, 0, 1, 2, 3, 4, 5, 6, 7, 8],
    },
    Record {
        octets: [
            0x98, 0xea, 0, 0xf9, 3, 0, 0, 0, 0xeb, 0xfe, 0, 0, 0, 0, 0, 0,
        ],
    },
];

/// A payload length above 8.
const NO_RECORD: [Record; 1] = [Record {
    octets: [0x8c, 0xf0, 4, 0, 9, 0, 0, 0, 0, 0, 0, 0, 0, 0, 0, 0],
}];

/// `ldb [1]`, `ret a`: the second octet of the record.
const SECOND_OCTET: [BpfInsn; 2] = [
    BpfInsn {
        code: 0x30,
        jt: 0,
        jf: 0,
        k: 1,
    },
    BpfInsn {
        code: 0x16,
        jt: 0,
        jf: 0,
        k: 0,
    },
];

#[test]
fn runs_code_on_each_record(rt: HostRuntime) {
    let mut answers = [7, 7];
    assert!(rt; run_code(rt.alloc(), &SECOND_OCTET, &RECORDS, 0, &mut answers));
    assert!(rt; answers == [7, 7]);
    assert!(rt; run_code(rt.alloc(), &SECOND_OCTET, &RECORDS, 2, &mut answers));
    assert!(rt; answers == [0xf0, 0xea]);
}

#[test]
fn refuses_code_and_records(rt: HostRuntime) {
    let mut answers = [7];
    let without_return = &SECOND_OCTET[..1];
    assert!(rt; !run_code(rt.alloc(), without_return, &RECORDS[..1], 1, &mut answers));
    assert!(rt; !run_code(rt.alloc(), &SECOND_OCTET, &NO_RECORD, 1, &mut answers));
    assert!(rt; answers == [7]);
}

#[test]
fn judges_each_record(rt: HostRuntime) {
    let text = b"[[rule]]\naction = \"pass\"\npgn = 59904\n";
    let mut verdicts = [true, false];
    assert!(rt; judge_by_rules(rt.alloc(), text, &RECORDS, 1, &mut verdicts));
    assert!(rt; verdicts == [false, true]);
    assert!(rt; !judge_by_rules(rt.alloc(), b"default", &RECORDS, 1, &mut verdicts));
    assert!(rt; verdicts == [false, true]);
}

#[test]
fn compiles_where_there_is_room(rt: HostRuntime) {
    let mut code = [SECOND_OCTET[0]; 23];
    assert!(rt; write_compiled(rt.alloc(), b"", &mut code[..21]) == 0);
    assert!(rt; write_compiled(rt.alloc(), b"default", &mut code) == 0);
    assert!(rt; write_compiled(rt.alloc(), b"other = \"pass\"", &mut code) == 22);
    assert!(rt; code[3].code == 0x06 && code[3].k == 1);
    assert!(rt; code[21].code == 0x06 && code[21].k == 0);
    assert!(rt; code[22].code == 0x30 && code[22].k == 1);
}
