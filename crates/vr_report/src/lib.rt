//! Scripts, which say what calls are made, and the texts that are written: of a replay, and of a policy's flows.
#![tactic(auto)]

mod flows;
mod reading;
mod script;
mod texts;

pub use flows::flow_text;
pub use script::{Line, MOST_SCRIPT, Script, ScriptFault, read_script};
pub use texts::{add_call_line, add_file_line, add_policy_line, file_text, reply_text};
