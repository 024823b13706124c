//! The crates of texts together. There is nothing here but tests: of method texts that are scanned, parsed, printed and
//! compiled, of what their code means, of the changes that a store keeps, and of hosts, on which stores stand.
#![tactic(auto)]

#[cfg(test)]
mod changes;
#[cfg(test)]
mod compiling;
#[cfg(test)]
mod guards;
#[cfg(test)]
mod host_calls;
#[cfg(test)]
mod hosts;
#[cfg(test)]
mod meanings;
#[cfg(test)]
mod parsing;
#[cfg(test)]
mod printing;
#[cfg(test)]
mod scanning;
#[cfg(test)]
mod texts;
