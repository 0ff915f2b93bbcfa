// The numbers that come before any call's work, the table's words, and the answers that calls give (document 01).
#![tactic(auto)]

pub mod answers;
pub mod forms;
pub mod numbers;
pub mod slots;
pub mod table;
pub mod walks;
