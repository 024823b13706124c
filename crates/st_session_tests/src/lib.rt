//! The commands over a host in memory. There is nothing here but tests, of what no run on real files shows: a script that comes
//! in pieces, a fault of each call, and a stop within each with all that it may leave.
#![tactic(auto)]

#[cfg(test)]
mod commands;
#[cfg(test)]
mod files;
#[cfg(test)]
mod sessions;
#[cfg(test)]
mod stops;
