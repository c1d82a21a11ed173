#![tactic(auto)]
//! What the commands of the program `gw` are asked, what they answer and how they refuse.

mod answer;
mod explanation;
mod files;
mod frames;
mod notes;
mod policies;
mod refusal;
mod requests;
mod responding;
mod streams;
mod texts;

pub use answer::Answer;
pub use explanation::RefusedFile;
pub use files::read_file;
pub use frames::{FrameWord, word_frame};
pub use gw_judge::Grouping;
pub use notes::{note_file, note_standard_identifier, note_uncounted, note_unread};
pub use policies::{PolicySource, policy};
pub use refusal::Refusal;
pub use requests::{CountForm, LogQuery, PolicyKind, PortFiles, Query, Shown, TableFiles};
pub use responding::{refuse, refuse_file, respond, respond_telling, write_refusal, write_text};
pub use streams::read_input;
pub use texts::{noted_record, program, read_table};
