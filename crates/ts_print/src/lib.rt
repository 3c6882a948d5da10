//! Prints: trees with a stamp in place of each file's bytes, and their text.
#![tactic(auto)]

pub mod decoding;
pub mod encoding;
pub mod fault;
pub mod field;
pub mod print;
pub mod reader;
pub mod stamps;
pub mod sub_print;
pub mod triples;
pub mod walk;

pub use decoding::decode;
pub use encoding::{encode, write_row};
pub use fault::PrintFault;
pub use print::{Print, Seen};
pub use reader::PrintReader;
pub use stamps::stamp_of;
pub use sub_print::SubPrint;
pub use triples::{Triple, Triples, walk3};
pub use ts_model::plan::{Action, Entry, Kind, Plan, PlanRule, Reason, Side};
pub use ts_model::row::Stamp;
pub use walk::Walk;
