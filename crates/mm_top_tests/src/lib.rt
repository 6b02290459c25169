//! Whole jobs, from the words of the command line to the bytes that are written and the status: tables of tests over sources and
//! sinks in memory.
#![tactic(auto)]

#[cfg(test)]
mod changes;
#[cfg(test)]
mod commands;
#[cfg(test)]
mod cookbook;
#[cfg(test)]
mod devices;
#[cfg(test)]
mod edits;
#[cfg(test)]
mod jobs;
#[cfg(test)]
mod large;
#[cfg(test)]
mod reference;
#[cfg(test)]
mod running;
#[cfg(test)]
mod samples;
