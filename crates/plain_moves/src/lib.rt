//! What a process of the plain machine does, move by move: it runs a module laid out as code, over terms whose bitstrings are shared and never changed.
#![tactic(auto)]

mod acting;
mod bodies;
mod calls;
mod choices;
mod comprehensions;
mod expressions;
mod focus;
mod frame;
mod giving;
mod moves;
mod opening;
mod operands;
mod reasons;
mod scene;
mod stack;
mod truths;
mod values;

pub use focus::{Focus, Further, Gathering, Level, Open, Stop, Visible};
pub use frame::{Frame, Part};
pub use giving::give;
pub use moves::Move;
pub use opening::open;
pub use reasons::{REDUCTIONS, UNDEF};
pub use scene::Scene;
pub use stack::Stack;
pub use values::{PlainCells, Values};
