//! The library calls that take memory, each on fixed input.

use crate::answer::Answer;
use crate::ends::{make_board, make_close, make_gateway, make_lanes, make_replace};
use crate::fault::Fault;
use crate::gateway::{make_core, make_events, make_run};
use crate::programs::{
    make_assemble, make_check, make_check_unset_word, make_disassemble, make_explain,
    make_read_cut_listing, make_read_listing, make_write_listing,
};
use crate::runs::{make_threads, make_threads_from};
use crate::tables::{
    make_absorb, make_answers, make_compile, make_crossings, make_differences, make_from_table,
    make_read_table,
};
use crate::traces::{make_feed, make_frames};
use std::alloc::Global;
use std::io::Write;
use std::marker::Sync;
use std::sync::Wait;
use std::thread::Threads;

/// A library call that takes memory.
#[derive(Clone, Copy)]
pub enum Call {
    /// `read_listing` on a listing.
    ReadListing,
    /// `read_listing` on a text that is no listing.
    ReadCutListing,
    /// `write_listing`.
    WriteListing,
    /// `Program::check` on accepted code.
    Check,
    /// `Program::check` on code that is not accepted.
    CheckUnsetWord,
    /// `explain`.
    Explain,
    /// `assemble`.
    Assemble,
    /// `disassemble`.
    Disassemble,
    /// `Table::read`.
    ReadTable,
    /// `compile`.
    Compile,
    /// `Table::differences`.
    Differences,
    /// `Table::answers`.
    Answers,
    /// `crossings`.
    Crossings,
    /// `Policy::from_table`.
    FromTable,
    /// `PolicySet::absorb`, which copies an `Arc` and so takes no memory of the allocator.
    Absorb,
    /// `Core::new`.
    NewCore,
    /// `Core::run`.
    RunEvents,
    /// `Core::event`, once for each event, which takes no memory.
    DoEvents,
    /// `board`.
    Board,
    /// `lanes`.
    Lanes,
    /// `gw_ports::gateway`.
    Gateway,
    /// `Operator::replace`.
    Replace,
    /// `gw_ports::close`.
    Close,
    /// `gw_ports::run`.
    Run,
    /// `gw_ports::run_from`.
    RunFrom,
    /// `Trace::feed`.
    Feed,
    /// `gw_trace::frames`.
    ReadFrames,
}

impl Call {
    /// Every call.
    pub const ALL: [Call; 27] = [
        Call::ReadListing,
        Call::ReadCutListing,
        Call::WriteListing,
        Call::Check,
        Call::CheckUnsetWord,
        Call::Explain,
        Call::Assemble,
        Call::Disassemble,
        Call::ReadTable,
        Call::Compile,
        Call::Differences,
        Call::Answers,
        Call::Crossings,
        Call::FromTable,
        Call::Absorb,
        Call::NewCore,
        Call::RunEvents,
        Call::DoEvents,
        Call::Board,
        Call::Lanes,
        Call::Gateway,
        Call::Replace,
        Call::Close,
        Call::Run,
        Call::RunFrom,
        Call::Feed,
        Call::ReadFrames,
    ];

    /// The word that names the call.
    pub fn name(self) -> &'static str {
        match self {
            Call::ReadListing => "read_listing",
            Call::ReadCutListing => "read_cut_listing",
            Call::WriteListing => "write_listing",
            Call::Check => "check",
            Call::CheckUnsetWord => "check_unset_word",
            Call::Explain => "explain",
            Call::Assemble => "assemble",
            Call::Disassemble => "disassemble",
            Call::ReadTable => "read_table",
            Call::Compile => "compile",
            Call::Differences => "differences",
            Call::Answers => "answers",
            Call::Crossings => "crossings",
            Call::FromTable => "from_table",
            Call::Absorb => "absorb",
            Call::NewCore => "core_new",
            Call::RunEvents => "core_run",
            Call::DoEvents => "core_event",
            Call::Board => "board",
            Call::Lanes => "lanes",
            Call::Gateway => "gateway",
            Call::Replace => "replace",
            Call::Close => "close",
            Call::Run => "run",
            Call::RunFrom => "run_from",
            Call::Feed => "feed",
            Call::ReadFrames => "frames",
        }
    }

    /// The call that a word names.
    pub fn named(word: &str) -> Option<Call> {
        Call::ALL.iter().copied().find(|call| call.name() == word)
    }

    /// Prepares the call's arguments, writes `ready`, and makes the call.
    pub fn make<R: Threads + Wait + Sync, W: Write>(
        self,
        rt: &R,
        alloc: Global,
        output: &mut W,
    ) -> Result<Answer, Fault> {
        match self {
            Call::ReadListing => make_read_listing(alloc, output),
            Call::ReadCutListing => make_read_cut_listing(alloc, output),
            Call::WriteListing => make_write_listing(alloc, output),
            Call::Check => make_check(alloc, output),
            Call::CheckUnsetWord => make_check_unset_word(alloc, output),
            Call::Explain => make_explain(alloc, output),
            Call::Assemble => make_assemble(alloc, output),
            Call::Disassemble => make_disassemble(alloc, output),
            Call::ReadTable => make_read_table(alloc, output),
            Call::Compile => make_compile(alloc, output),
            Call::Differences => make_differences(alloc, output),
            Call::Answers => make_answers(alloc, output),
            Call::Crossings => make_crossings(alloc, output),
            Call::FromTable => make_from_table(alloc, output),
            Call::Absorb => make_absorb(alloc, output),
            Call::NewCore => make_core(alloc, output),
            Call::RunEvents => make_run(alloc, output),
            Call::DoEvents => make_events(alloc, output),
            Call::Board => make_board(alloc, output),
            Call::Lanes => make_lanes(alloc, output),
            Call::Gateway => make_gateway(alloc, output),
            Call::Replace => make_replace(rt, alloc, output),
            Call::Close => make_close(rt, alloc, output),
            Call::Run => make_threads(rt, alloc, output),
            Call::RunFrom => make_threads_from(rt, alloc, output),
            Call::Feed => make_feed(alloc, output),
            Call::ReadFrames => make_frames(alloc, output),
        }
    }
}
