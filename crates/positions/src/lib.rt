// Where the aircraft is: the GPS records, a payload's bytes to a record, and back.
#![tactic(auto)]

pub mod gps;
pub mod gps_extended;
