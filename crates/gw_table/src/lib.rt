//! Tables of pass and block rules, and the programs that they are compiled to.
#![tactic(auto)]

mod compiler;
mod crossing;
mod dead;
mod difference;
mod explanation;
mod faults;
mod fields;
mod index;
mod ingress;
mod nearest;
mod no_frame;
mod pair_frames;
mod question;
mod reading;
mod refusal;
mod rule_set;
mod rule_sets;
mod search;
mod section;
mod table;
mod universe;
mod values;
mod verdict;

pub use compiler::compile;
pub use crossing::{Change, Crossing, crossings};
pub use dead::WhyDead;
pub use difference::Difference;
pub use fields::FrameFields;
pub use index::IndexedTable;
pub use no_frame::WhyNoFrame;
pub use question::{Answer, Question, Sample};
pub use refusal::{ActionFault, Field, KeyLocation, RangeFault, TableRefusal};
pub use table::{Action, Part, Rule, Span, Table};
