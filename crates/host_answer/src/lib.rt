// What a host's entries answer: eight bytes in one number.
#![tactic(auto)]

pub mod answer;
pub mod call;
pub mod reply;
