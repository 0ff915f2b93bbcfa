// The board for a panel's host: the calls of document 01 and the types that they take and give. Nothing here has a `requires`.
// What is lent comes one by one, by & or &mut as the call needs it: one value of all of it would ask callers for more.
#![tactic(auto)]

pub use checkpoints::{begin, step};
pub use loads::{load, peek, peek_number};
pub use rules::{Answer, Backup, Controller, Geometry, Number, Phase, Recovery, Registers};
pub use starts::{format, recover};
pub use stores::{store, store_number};
pub use sweeps::sweep;
