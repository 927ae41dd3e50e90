//! The node: all processes of a run, and one step of one of them.
//!
//! Depends on tn_process and on the definitions of def_node. Promises that `Node::new` is the state of
//! the program before any pick, and that `Node::step` answers what the definition's `pick_result` gives
//! for a pick, the events in order, the next command's number or nothing, and has the state after it; and that
//! `Node::outlook` is what def_outlook says of the step before it is made. A node that was refused memory is
//! spent: it answers the refusal from then on. It knows nothing of sessions. A node once more is the same node, each
//! of its processes has one owner more until a step changes it, and `Node::same` says whether two are in the same
//! state. Between two picks the processes of a node are seen as they are.
#![tactic(auto)]

mod events;
mod node;
mod outlook;
mod share;
mod step_outcome;
mod world;

pub use node::Node;
pub use outlook::Outlook;
pub use step_outcome::Moved;
