//! Traces: what rows asked for, and made of the answers.
//!
//! A trace has the names that a row asked for, one after another, the values that it was given, and the value that it made
//! of them. A name whose inputs get these values again need not be computed: its value is known, before the row is asked.
//!
//! A row of crate `daig_order` asks for each input by the values of those before it. So a trace is followed from left to
//! right: while the values in it are its names' own, the row asks for the next name in it. Where all of them are, the trace
//! has exactly the name's inputs, and its value.
//!
//! The definition is in `specs/Traces.antt`, over names and values of any type, and the theorems in
//! `specs/Theorems.antt`. The functions below do nothing when they run: each carries theorems as its clauses.
#![tactic(auto)]

ghost use Rattle.daig_traces.specs.Theorems.{FoundLead, FoundTell, NamesHaveTraces, TracesLead, TracesMove, TracesTell};

/// That each name has a trace, how far a trace leads, what it tells, and when it is one of another program's row.
pub fn trace_laws<T, V>()
    ensures there { NamesHaveTraces T V }
    ensures leads { TracesLead T V }
    ensures tells { TracesTell T V }
    ensures moves { TracesMove T V }
{}

/// The same where a name's inputs are looked up one after another, as a demand does.
pub fn found_laws<T, V>()
    ensures leads { FoundLead T V }
    ensures tells { FoundTell T V }
{}
