//! Frames in candump's form, and the lines of the logs of a bus, which have them.
#![tactic(auto)]

mod digits;
mod display;
mod law;
mod line;
mod payload;
mod reading;
mod recorded;
mod refusal;
mod words;
mod writing;

pub use law::{reads_back, writes_back};
pub use line::{LogLine, MAX_LINE, read_line};
pub use reading::read_frame;
pub use refusal::{FRAME_FORM, LogRefusal};
pub use writing::{FrameText, frame_text};
