//! A gadget that holds lines of memory to be honest one by one: the old word of a line is looked up
//! among all the earlier ones. It needs no network and no order, but takes three constraints for
//! each pair of lines.
#![tactic(auto)]

mod scans;

pub use scans::{fill_scan, scan, scan_laws};
