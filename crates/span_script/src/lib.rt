//! Scripts of spans: the lines that a text spells, the requests that they ask for, and what comes
//! of these on the stack that the script names, alone or shared by workers.
#![tactic(auto)]

mod crew;
mod fault;
mod line;
mod misfit;
mod mute;
mod mute_veto;
mod program;
mod read;
mod reason;
mod reply;
mod run_fault;
mod script;
mod script_stack;
mod scripted;
mod site;
mod stack_name;
mod stacks;
mod unasked;
mod way;

pub use fault::{ReadFault, ScriptFault, WrongLine};
pub use line::{Line, MuteField, Name, ParentName};
pub use mute::{Mute, is_muted};
pub use mute_veto::MuteVeto;
pub use program::{run, run_shared, run_with};
pub use read::{SCRIPT_LIMIT, read_script};
pub use reason::Reason;
pub use reply::{Section, text_of};
pub use run_fault::RunFault;
pub use script::Script;
pub use stack_name::StackName;
