//! The tests of the crates from the disk up to the store and the follower: over disks in memory
//! that fail, stop and lose power.
#![tactic(auto)]

#[cfg(test)]
mod appends;
#[cfg(test)]
mod disks;
#[cfg(test)]
mod entries;
#[cfg(test)]
mod files;
#[cfg(test)]
mod followers;
#[cfg(test)]
mod logged_store;
#[cfg(test)]
mod older_stores;
#[cfg(test)]
mod quiet_disk;
#[cfg(test)]
mod records;
#[cfg(test)]
mod refusals;
#[cfg(test)]
mod snapshots;
#[cfg(test)]
mod stops;
#[cfg(test)]
mod stores;
#[cfg(test)]
mod streams;
#[cfg(test)]
mod turned_disk;
