//! Tests of what no contract says: printed texts, failing streams, values of standards, and calls
//! that take memory with ample memory, at the greatest sizes too. The program
//! `relay_scripts` replays scripts, reads tables of MessagePack as others spell it, and makes the
//! other calls that take memory. Tables of texts and bytes are input of a program, since in a
//! source they cost the prover minutes and gigabytes. A test stands here only for what no clause,
//! script, table or line of `relay_scripts calls` says: each line of a test costs the gate a
//! quarter of a second.
#![tactic(auto)]

#[cfg(test)]
mod connections;
#[cfg(test)]
mod greatest;
#[cfg(test)]
mod handshakes;
#[cfg(test)]
mod monitor;
#[cfg(test)]
mod output;
#[cfg(test)]
mod program;
#[cfg(test)]
mod relay;
#[cfg(test)]
mod request;
#[cfg(test)]
mod servers;
#[cfg(test)]
mod session;
#[cfg(test)]
mod stories;
