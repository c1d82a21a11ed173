//! What is read and written as text: records in hexadecimal digits, listings and tables as policies, lines, words and decimal
//! digits, and the line of a refusal.
#![tactic(auto)]

mod bounds;
mod line;
mod lines;
mod numbers;
mod places;
mod programs;
mod records;
mod refusing;
mod rule_places;
mod tables;

pub use bounds::MAX_INPUT;
pub use line::Line;
pub use lines::{first_line, first_word, line_in, position_of};
pub use numbers::{number, number_before, port, port_before};
pub use places::{Place, refused_place};
pub use programs::{ProgramFault, program, program_policy};
pub use records::{RecordFault, record};
pub use refusing::{ExplainedCode, refused, refused_code, refused_rule};
pub use rule_places::{line_of_rule, rule_lines};
pub use tables::{TableFault, table, table_policy};
