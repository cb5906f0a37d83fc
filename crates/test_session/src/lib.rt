//! Tests of sessions over a domain that fails: what stands after memory ran out, and which questions take no operation.
//! New tables of names change no answer. Here too are tests of what the program does not call: the text of a statement.
#![tactic(auto)]

#[cfg(test)]
mod edits;
#[cfg(test)]
mod failing;
#[cfg(test)]
mod memory;
#[cfg(test)]
mod names;
#[cfg(test)]
mod printing;
#[cfg(test)]
mod scripts;
#[cfg(test)]
mod texts;
#[cfg(test)]
mod turns;
#[cfg(test)]
mod values;
