//! The commands of the program and their options, in the order in which help shows them.

use crate::form::{FLAG, Form, Group, Opt, Presence, Takes, Written};
use gw_ledger::MAX_PORTS;

/// The file that is read in place of the standard input.
const FILE: Opt<'static> = Opt {
    name: "file",
    written: Written::ByPlace,
    takes: Takes::Value("FILE"),
    help: "The file that is read in place of the standard input; `-` is the standard input",
    ..FLAG
};

/// The ingress port of a frame.
const PORT: Opt<'static> = Opt {
    name: "port",
    takes: Takes::Port("P"),
    help: "The port at which the frame was taken, 0 to 15, `from` in a table [default: 0]",
    ..FLAG
};

/// A frame in candump's form.
const CAN: Opt<'static> = Opt {
    name: "can",
    takes: Takes::Value("FRAME"),
    help: "The frame in candump's form in place of the record: 18FEF100#0102030405060708, or 123#R3 for a remote one",
    ..FLAG
};

/// That the exit status tells that a frame is blocked.
const EXIT_CODE: Opt<'static> = Opt {
    name: "exit-code",
    help: "Ends with status 3 where the frame is blocked; without it with 0, as where it passes",
    ..FLAG
};

/// How many ports a gateway has.
const PORTS: Opt<'static> = Opt {
    name: "ports",
    takes: Takes::Number("N", 2, MAX_PORTS as i64),
    ..FLAG
};

/// An interface of a log for a port.
const INTERFACE: Opt<'static> = Opt {
    name: "interface",
    takes: Takes::Values("NAME=P"),
    help: "The input is a log of candump, and port P takes the frames of interface NAME; once for each interface",
    ..FLAG
};

/// The commands, in the order in which help shows them.
pub(crate) fn forms() -> [&'static Form<'static>; 11] {
    [
        &VERDICT, &CHECK, &ASM, &LIST, &CLAIMS, &REPLAY, &TABLE, &ASK, &DIFF, &JUDGE, &RUN,
    ]
}

pub(crate) static VERDICT: Form<'static> = Form {
    name: "verdict",
    about: "Runs a program's listing on a record: `pass <answer>` or `block`",
    usage: "gw verdict [(HEX | --can FRAME) [--listing FILE]] [--port P] [--exit-code]",
    example: "Example: gw verdict 98FEF10008000000FFFFFFFFFFFFFFFF <<< '4,48 0 0 1,21 0 1 254,6 0 0 1,6 0 0 0,'",
    groups: &[Group {
        name: "said",
        members: &["record", "can"],
        is_required: false,
        is_multiple: false,
    }],
    options: &[
        PORT,
        Opt {
            name: "record",
            written: Written::ByPlace,
            takes: Takes::Value("HEX"),
            help: "The record in hexadecimal digits; without it, the first line of the input is the record",
            ..FLAG
        },
        EXIT_CODE,
        CAN,
        Opt {
            written: Written::As("listing"),
            help: "The file with the listing, in place of the standard input",
            needs: &["said"],
            ..FILE
        },
    ],
};

pub(crate) static CHECK: Form<'static> = Form {
    name: "check",
    about: "Checks a program's listing: `accepted <count>`, or why it is refused",
    usage: "gw check [FILE]",
    example: "Example: gw check <<< '2,48 0 0 1,22 0 0 0,'",
    groups: &[],
    options: &[FILE],
};

pub(crate) static ASM: Form<'static> = Form {
    name: "asm",
    about: "Assembles a program's text to its listing",
    usage: "gw asm [FILE]",
    example: "Example: gw asm examples/speed-limit.asm",
    groups: &[],
    options: &[FILE],
};

pub(crate) static LIST: Form<'static> = Form {
    name: "list",
    about: "Writes the text of a listing's program, which `asm` reads back",
    usage: "gw list [FILE]",
    example: "Example: gw list <<< '2,48 0 0 1,22 0 0 0,'",
    groups: &[],
    options: &[FILE],
};

pub(crate) static CLAIMS: Form<'static> = Form {
    name: "claims",
    about: "Tells who holds which address after the records heard, one in hexadecimal digits a line, or after the frames of a \
    log",
    usage: "gw claims [--log] [FILE]",
    example: "Example: gw claims <<< 98EEFF80080000000500000000000000",
    groups: &[],
    options: &[
        FILE,
        Opt {
            name: "log",
            help: "Reads a log of candump, and tells the holders at each interface behind its name",
            ..FLAG
        },
    ],
};

pub(crate) static REPLAY: Form<'static> = Form {
    name: "replay",
    about: "Runs a script of a gateway's events, and writes the answer of each line",
    usage: "gw replay [--strict] < SCRIPT",
    example: "Example: gw replay < examples/replay/full-lane.script",
    groups: &[],
    options: &[Opt {
        name: "strict",
        help: "Ends with status 1 where a line was refused; without it with 0, as where none was",
        ..FLAG
    }],
};

pub(crate) static TABLE: Form<'static> = Form {
    name: "table",
    about: "Compiles a policy table to a program's listing, or tells `pass` or `block` for a frame",
    usage: "gw table [FILE] [--show | (--frame HEX | --can FRAME) [--why] [--exit-code]] [--port P]",
    example: "Example: gw table examples/diagnostics-port.toml --port 1 --can 18EA00F9#EBFE00",
    groups: &[Group {
        name: "said",
        members: &["frame", "can"],
        is_required: false,
        is_multiple: false,
    }],
    options: &[
        FILE,
        PORT,
        Opt {
            name: "frame",
            takes: Takes::Value("HEX"),
            help: "A record in hexadecimal digits: tells whether the table passes it",
            ..FLAG
        },
        CAN,
        Opt {
            name: "show",
            help: "Tells in words what each rule says, in place of the program's listing",
            conflicts: &["said"],
            ..FLAG
        },
        Opt {
            name: "why",
            help: "Tells on stderr which rule decides the frame, counted from 0",
            needs: &["said"],
            ..FLAG
        },
        Opt {
            needs: &["said"],
            ..EXIT_CODE
        },
    ],
};

pub(crate) static ASK: Form<'static> = Form {
    name: "ask",
    about: "Tells whether a policy table passes all frames that are asked for, or none, or shows a frame of each kind",
    usage: "gw ask [FILE] [--pgn A[-B]] [--source A[-B]] [--destination A[-B]] [--from P[-Q]]",
    example: "Example: gw ask examples/engine-control.toml --pgn 0 --destination 0 --from 1",
    groups: &[],
    options: &[
        FILE,
        Opt {
            name: "pgn",
            takes: Takes::Value("A[-B]"),
            help: "The parameter groups asked for, a number or a range, 0 to 262143 or 0x3FFFF [default: every frame, with a \
            group or not]",
            ..FLAG
        },
        Opt {
            name: "source",
            takes: Takes::Value("A[-B]"),
            help: "The source addresses asked for, 0 to 255",
            ..FLAG
        },
        Opt {
            name: "destination",
            takes: Takes::Value("A[-B]"),
            help: "The destinations asked for, 0 to 255; frames of PDU format 240 and above go to 255 alone",
            ..FLAG
        },
        Opt {
            name: "from",
            takes: Takes::Value("P[-Q]"),
            help: "The ports asked for at which the frame was taken, 0 to 15 [default: each]",
            ..FLAG
        },
    ],
};

pub(crate) static DIFF: Form<'static> = Form {
    name: "diff",
    about: "Compares two policy tables, or the tables of a gateway's ports: `alike`, or each pair of rules that decide some \
    frame unlike, with an example",
    usage: "gw diff ([--log [--port P]] OLD.toml NEW.toml | --ports N [--old P=FILE].. [--new P=FILE]..)",
    example: "Example: gw diff examples/display.toml examples/display-others.toml",
    groups: &[],
    options: &[
        Opt {
            name: "old-file",
            written: Written::ByPlace,
            takes: Takes::Value("OLD.toml"),
            help: "The file of the old table",
            presence: Presence::RequiredWithout("ports"),
            ..FLAG
        },
        Opt {
            name: "new-file",
            written: Written::ByPlace,
            takes: Takes::Value("NEW.toml"),
            help: "The file of the new table",
            presence: Presence::RequiredWithout("ports"),
            ..FLAG
        },
        Opt {
            name: "log",
            help: "Compares them on the log on the standard input: writes each line whose frame they treat unlike, behind what \
            NEW does",
            ..FLAG
        },
        Opt {
            needs: &["log"],
            ..PORT
        },
        Opt {
            help: "The number of ports of a gateway, 2 to 16, whose tables --old and --new name",
            conflicts: &["old-file", "log"],
            ..PORTS
        },
        Opt {
            name: "old",
            takes: Takes::Values("P=FILE"),
            help: "The table that decided what leaves at port P, once for each port; a port without one let nothing leave",
            needs: &["ports"],
            ..FLAG
        },
        Opt {
            name: "new",
            takes: Takes::Values("P=FILE"),
            help: "The table that is to decide it; a port without one will let nothing leave",
            needs: &["ports"],
            ..FLAG
        },
    ],
};

pub(crate) static JUDGE: Form<'static> = Form {
    name: "judge",
    about: "Judges each frame of a log of candump or of a pcap trace: counts what each rule decided, or writes the lines that \
    pass",
    usage: "gw judge ((--table FILE | --listing FILE) [--port P] [[--by WHAT] [--json] | --passed | --blocked | --each] \
    [--strict] | --out --interface NAME=P.. [--table P=FILE].. [--listing P=FILE].. [--ports N]) < LOG",
    example: "Example: gw judge --table examples/display.toml < examples/traces/diagnostics.log",
    groups: &[
        Group {
            name: "policy",
            members: &["table", "listing"],
            is_required: true,
            is_multiple: true,
        },
        Group {
            name: "shown",
            members: &["passed", "blocked", "each"],
            is_required: false,
            is_multiple: false,
        },
    ],
    options: &[
        Opt {
            name: "table",
            takes: Takes::Values("FILE"),
            help: "A file with the policy table that decides each frame; with --out P=FILE, once for each port",
            ..FLAG
        },
        Opt {
            name: "listing",
            takes: Takes::Values("FILE"),
            help: "A file with a program's listing that decides each frame; with --out P=FILE, once for each port",
            ..FLAG
        },
        Opt {
            name: "by",
            takes: Takes::OneOf("WHAT", &["rule", "pgn", "source"]),
            help: "Counts frames by rule, by pgn or by source: which groups and which senders pass [default: rule]",
            conflicts: &["shown"],
            ..FLAG
        },
        Opt {
            name: "json",
            help: "Writes the counts as one JSON object; --passed, --blocked and --each write lines in place of counts",
            conflicts: &["shown"],
            ..FLAG
        },
        Opt {
            name: "passed",
            help: "Writes the lines whose frame passes, unchanged, in place of the counts",
            ..FLAG
        },
        Opt {
            name: "blocked",
            help: "Writes the lines whose frame is blocked, unchanged, in place of the counts",
            ..FLAG
        },
        Opt {
            name: "each",
            help: "Writes each line with a frame behind its verdict and what decides it, in place of the counts",
            ..FLAG
        },
        PORT,
        Opt {
            name: "strict",
            help: "Ends with the first line that says no classic frame, or record of a capture that is none; without it they are \
            counted",
            ..FLAG
        },
        Opt {
            name: "out",
            help: "Writes each frame once for each interface at which it leaves, in the log's order; the policies are --table \
            P=FILE and --listing P=FILE, once for each port, and a port without one lets nothing leave",
            needs: &["interface"],
            conflicts: &["shown", "by", "json", "port", "strict"],
            ..FLAG
        },
        Opt {
            needs: &["out"],
            ..INTERFACE
        },
        Opt {
            help: "The number of ports, 2 to 16, so that no P above them is named [default: 16]",
            needs: &["out"],
            ..PORTS
        },
    ],
};

pub(crate) static RUN: Form<'static> = Form {
    name: "run",
    about: "Forwards the frames of a trace or a log in threads, and tells what each port took and what of it the others let \
    leave",
    usage: "gw run --ports N [--lane N] [--program LISTING] [--table P=FILE].. [--listing P=FILE].. \
    ([--interface NAME=P].. | [--in P=FILE]..) [--wait] ([--policies] [--lanes] | [--json]) [--progress] < INPUT",
    example: "A port's line counts the frames taken there; those of them that were for its own segment, as local; and as allowed \
    the copies of its frames that the policies of other ports let leave there.\n\
    Example: gw run --ports 2 --program '1,6 0 0 1,' < TRACE",
    groups: &[],
    options: &[
        Opt {
            help: "The number of ports, 2 to 16; frame i of a trace is taken at port i mod N",
            presence: Presence::Required,
            ..PORTS
        },
        Opt {
            name: "lane",
            takes: Takes::Number("N", 1, 1024),
            help: "How many copies may wait on the way from one port to another, 1 to 1024 [default: 64]",
            ..FLAG
        },
        Opt {
            name: "program",
            takes: Takes::Value("LISTING"),
            help: "The listing of a program that decides what leaves at each port that no other option names",
            ..FLAG
        },
        Opt {
            name: "table",
            takes: Takes::Values("P=FILE"),
            help: "A table that decides what leaves at port P; once for each port",
            ..FLAG
        },
        Opt {
            name: "listing",
            takes: Takes::Values("P=FILE"),
            help: "A file with a program's listing that decides what leaves at port P; once for each port",
            ..FLAG
        },
        INTERFACE,
        Opt {
            name: "in",
            takes: Takes::Values("P=FILE"),
            help: "A log of candump or a trace, whose frames are taken at port P, once for each port; the input is not read then",
            conflicts: &["interface"],
            ..FLAG
        },
        Opt {
            name: "wait",
            help: "Lets a copy that finds its lane full wait for room: each one that is allowed is placed, and each run tells \
            the same",
            ..FLAG
        },
        Opt {
            name: "policies",
            help: "Tells behind the ports how many frames each port's policy judged and passed, and how many copies of these \
            were lost",
            ..FLAG
        },
        Opt {
            name: "lanes",
            help: "Tells behind the ports what was placed and lost on the way from each port to each other",
            ..FLAG
        },
        Opt {
            name: "json",
            help: "Tells the ports, the policies and the lanes as one JSON object, in place of lines",
            conflicts: &["policies", "lanes"],
            ..FLAG
        },
        Opt {
            name: "progress",
            help: "Tells on stderr, once a second, how many frames are done",
            ..FLAG
        },
    ],
};
