//! Session scripts: the bytes of one are read, and printed back; what it says of the screen, the clients and their calls; and
//! what each call means after the replies to those before it.
#![tactic(auto)]

mod laws;
mod lines;
mod names;
mod script;

pub use laws::whole_where_all;
pub use names::Names;
pub use script::Script;
pub use script_grammar::{Cause, ScriptStop};
pub use script_names::Call;
pub use script_reader::split;
