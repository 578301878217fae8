#![tactic(auto)]
//! The programs over any words, files and streams: what is found and written, and the status of the
//! end. The crate of each program passes the words, files and streams of the process.

mod files;
mod process;
mod program;
mod status;
mod tools;

pub use files::{Open, SystemFiles};
pub use process::run_process;
pub use program::{Found, ProgramFault, run_program, without_memory};
pub use status::{check_status, exit_code, where_status};
pub use tools::{MachoCheck, Tool};
