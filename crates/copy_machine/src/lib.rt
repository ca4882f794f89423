//! The copying machine over any process: its state, and what each entry does to it.
#![tactic(auto)]

mod act;
mod actor;
mod asks;
mod call;
mod ending;
mod entries;
mod fault;
mod machine;
mod next_ask;
mod outcome;
mod progress;
mod queue;
mod replaying;
mod row;
mod running;
mod want;
mod world;

pub use call::Call;
pub use fault::CopyFault;
pub use machine::Machine;
pub use replaying::replay;
pub use running::run;
pub use world::World;
