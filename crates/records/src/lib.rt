// Telemetry of fixed layouts: a payload's bytes to a record, and back.
#![tactic(auto)]

pub mod baro_altitude;
pub mod battery;
pub mod link_statistics;
