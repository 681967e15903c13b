//! A dispatcher: it takes requests, asks the layers of a stack, and notifies them.
#![tactic(auto)]

mod cache;
mod call;
mod dispatch;
pub mod laws;
mod recorded;
mod recorder;
mod registration;
mod request;
mod serve;

pub use call::Call;
pub use dispatch::Dispatch;
pub use recorded::Recorded;
pub use recorder::Recorder;
pub use registration::Registration;
pub use request::{Answer, Request, Which, WhichParent};
