//! Tests of the server over objects in memory: sinks and sources that move few bytes a call, devices that fail, and what is at
//! the limits. What is written for worked inputs is told by the rows of the examples.
#![tactic(auto)]

#[cfg(test)]
mod conversation;
#[cfg(test)]
mod devices;
#[cfg(test)]
mod generated;
#[cfg(test)]
mod limits;
#[cfg(test)]
mod table;
