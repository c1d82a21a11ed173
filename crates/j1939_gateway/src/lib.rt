//! One door to the gateway: what a program of one's own calls, from octets of a frame to a gateway that runs in threads.
//!
//! - Frames: `Frame`, `CanId`, `Name`, `Claims`, and `record` from hexadecimal digits.
//! - Programs: `read_listing`, `assemble`, `Program::check`, `State` and `run_program`, `disassemble`, `write_listing`.
//! - Tables: `Table`, `IndexedTable`, `compile`, and `table` from octets. `Table::differences` compares two, and `crossings`
//!   those of a gateway's ports. `Table::answers` answers a `Question`.
//! - Policies: `Policy`, `Batch`, `PolicySet`, `VerdictCache`; `program_policy` and `table_policy` from octets.
//! - A gateway: `Limits`, `gateway`, its ends `Operator`, `PortIn` and `PortOut`, `close`; or `run_from`, with its own threads.
//! - The model of every order of events: `Core`, `Event`, `Answer`. In one thread `Core::forward` and `Core::next` suffice.
//! - Traces: `frames`, `Trace`, `Checked`. Scripts: `replay`.
#![tactic(auto)]

pub use gw_board::NoReading;
pub use gw_board::Operator;
pub use gw_board::ReplaceRefusal;
pub use gw_board::Told;
pub use gw_claims::Claims;
pub use gw_core::Answer;
pub use gw_core::Core;
pub use gw_core::Event;
pub use gw_core::EventRefusal;
pub use gw_core::RenewRefusal;
pub use gw_frame::Frame;
pub use gw_frame::FrameRefusal;
pub use gw_ident::CanId;
pub use gw_ident::Name;
pub use gw_input::ProgramFault;
pub use gw_input::RecordFault;
pub use gw_input::TableFault;
pub use gw_input::program;
pub use gw_input::program_policy;
pub use gw_input::record;
pub use gw_input::table;
pub use gw_input::table_policy;
pub use gw_insn::Insn;
pub use gw_insn::ListRefusal;
pub use gw_insn::Raw;
pub use gw_insn::decode;
pub use gw_insn::encode;
pub use gw_insn::read_listing;
pub use gw_insn::write_listing;
pub use gw_io::Tried;
pub use gw_io::WriteFault;
pub use gw_io::write_all;
pub use gw_ledger::BadLimit;
pub use gw_ledger::FrameCopy;
pub use gw_ledger::InLedger;
pub use gw_ledger::Limits;
pub use gw_ledger::OutLedger;
pub use gw_ledger::Outcome;
pub use gw_ledger::PortSet;
pub use gw_ledger::balance;
pub use gw_machine::State;
pub use gw_machine::one_answer;
pub use gw_machine::run as run_program;
pub use gw_machine::soundness;
pub use gw_policy::Batch;
pub use gw_policy::BatchRefusal;
pub use gw_policy::Policy;
pub use gw_policy::PolicySet;
pub use gw_policy::VerdictCache;
pub use gw_ports::CloseRefusal;
pub use gw_ports::Gate;
pub use gw_ports::LaneLeft;
pub use gw_ports::MakeRefusal;
pub use gw_ports::OfferRefusal;
pub use gw_ports::Parts;
pub use gw_ports::PortIn;
pub use gw_ports::PortOut;
pub use gw_ports::Report;
pub use gw_ports::RunEnd;
pub use gw_ports::RunRefusal;
pub use gw_ports::RunReport;
pub use gw_ports::Sink;
pub use gw_ports::close;
pub use gw_ports::gateway;
pub use gw_ports::outcome_lists;
pub use gw_ports::run;
pub use gw_ports::run_from;
pub use gw_ports::run_with;
pub use gw_replay::ReplayFault;
pub use gw_replay::replay;
pub use gw_replay::replay_told;
pub use gw_table::Answer as TableAnswer;
pub use gw_table::Change;
pub use gw_table::Crossing;
pub use gw_table::Difference;
pub use gw_table::IndexedTable;
pub use gw_table::Part;
pub use gw_table::Question;
pub use gw_table::Sample;
pub use gw_table::Span;
pub use gw_table::Table;
pub use gw_table::TableRefusal;
pub use gw_table::WhyDead;
pub use gw_table::WhyNoFrame;
pub use gw_table::compile;
pub use gw_table::crossings;
pub use gw_text::AsmRefusal;
pub use gw_text::Explained;
pub use gw_text::assemble;
pub use gw_text::disassemble;
pub use gw_trace::Checked;
pub use gw_trace::Records;
pub use gw_trace::Share;
pub use gw_trace::Taken;
pub use gw_trace::Trace;
pub use gw_trace::TraceRefusal;
pub use gw_trace::frames;
pub use gw_verify::Cause;
pub use gw_verify::Path;
pub use gw_verify::Program;
pub use gw_verify::Refused;
pub use gw_verify::explain;
pub use gw_verify::holds;
