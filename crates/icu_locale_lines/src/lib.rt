//! Lines of locale identifiers, and the answer to each: what the programs and the C interface stand on.
#![tactic(auto)]

mod answer;
mod asked;
mod command;
mod cursor;
mod error;
mod given;
pub mod laws;
mod program;
mod runs;
mod sample_tables;
mod session;
mod work;

pub use asked::{Asked, Source};
pub use command::{
    ByRules, Command, KeyOf, LineCommand, ServeTask, Task, TaskRow, Wishes, syntax_of, task_of,
};
pub use cursor::Words;
pub use error::CliError;
pub use given::Given;
pub use program::{program_words, run_by, run_words, stream_asked, stream_words};
pub use runs::Status;
pub use runs::input::read_all;
pub use runs::stream::stream;
pub use runs::whole::{run, run_json};
pub use sample_tables::{SAMPLE, SAMPLE_SUPPLEMENT, sample, whole_sample};
pub use session::Session;
pub use session::list::KeptList;
pub use session::load::{load_expander, load_whole_canonicalizer, missing_table};
pub use work::form::Form;
pub use work::list::{fault_of_list, read_list};
pub use work::name::Naming;
pub use work::offered::Offered;
pub use work::{Tools, Work};
