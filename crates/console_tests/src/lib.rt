//! The tests of whole runs of the console that aren't rows: disks that fail or stop at each of
//! their calls in turn. `console_rows` has the rows.
#![tactic(auto)]

#[cfg(test)]
mod faults;
#[cfg(test)]
mod runs;
#[cfg(test)]
mod stops;
