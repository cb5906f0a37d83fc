//! From a reply to its line, by serde: the clause `line` of [`reply_line`].
ghost use Rattle.std.specs.Prelude.{◌≡◌, length, IfOk, OnOk};
ghost use Rattle.serde_json.specs.Events.{SendsValue};
ghost use Rattle.request_json.specs.Replies.{reply_text, object_of, reply_fields, list_of, item_data, fault_data, check_name, verdict_name, fault_verdict_name, fault_name, end_name, end_fields, reached_fields, query_number, refusal_number, place_fields, fault_fields};
ghost use Rattle.request_json.specs.Sending.{SendsField, SendsFields};

use crate::reply::{ProgramFault, Refusal, Reply};
use crate::sending::{send_count, send_ids, send_text, send_word};
use base_values::Memory;
use fault_words::{FaultFinding, FaultVerdict};
use imp_words::{Check, FaultKind, Finding, QueryRefusal as QueryRefusal, RunEnd, Verdict};
use serde::{Described, Serialize, Serializer};
use std::alloc::Global;

/// The word of a check.
fn check_word(check: Check) -> &'static str
    ensures word { result.now ≡ check_name check }
{
    match check {
        Check::Bounds => "bounds",
        Check::Null => "null",
        Check::Assert => "assert",
    }
}

/// The word of what is found.
fn verdict_word(verdict: Verdict) -> &'static str
    ensures word { result.now ≡ verdict_name verdict }
{
    match verdict {
        Verdict::Dead => "dead",
        Verdict::Safe => "safe",
        Verdict::May => "may",
    }
}

/// The word of a fault.
fn fault_word(fault: FaultKind) -> &'static str
    ensures word { result.now ≡ fault_name fault }
{
    match fault {
        FaultKind::Overflow => "overflow",
        FaultKind::Zero => "zero",
        FaultKind::Index => "index",
        FaultKind::Length => "length",
        FaultKind::Null => "null",
        FaultKind::Assert => "assert",
    }
}

/// The word of what is found of a fault.
fn fault_verdict_word(verdict: FaultVerdict) -> &'static str
    ensures word { result.now ≡ fault_verdict_name verdict }
{
    match verdict {
        FaultVerdict::Dead => "dead",
        FaultVerdict::Safe => "safe",
        FaultVerdict::May => "may",
        FaultVerdict::Fails => "fails",
    }
}

/// The word of the end of a run.
fn end_word(end: &RunEnd) -> &'static str
    ensures word { result.now ≡ end_name end.now }
{
    match end {
        RunEnd::Ended => "ended",
        RunEnd::Fault(_, _) => "fault",
        RunEnd::InputsUsedUp(_) => "inputs",
        RunEnd::FuelUsedUp => "fuel",
    }
}

/// The number of why a query has no answer.
fn query_number(why: QueryRefusal) -> u64
    ensures number { result ≡ query_number why }
{
    match why {
        QueryRefusal::NoStatement => 4,
        QueryRefusal::NoProcedure => 5,
        QueryRefusal::WrongStatement => 6,
        QueryRefusal::NoChain => 10,
        QueryRefusal::LongString => 11,
    }
}

/// The number of a refusal.
#[tactic(auto, unfolding(crate::specs::Replies::refusal_number))]
fn refusal_number(refusal: &Refusal) -> u64
    ensures number { result ≡ refusal_number refusal.now }
{
    match refusal {
        Refusal::NoJson => 1,
        Refusal::BadMember => 2,
        Refusal::NoRequest => 3,
        Refusal::Query(why) => query_number(*why),
        Refusal::Unread { .. } => 7,
        Refusal::IllFormed(_) => 8,
        Refusal::Limit(_) => 9,
        Refusal::StillCalled => 12,
        Refusal::NoTicket => 13,
        Refusal::ManyTickets => 14,
        Refusal::LongLine => 15,
        Refusal::Gone => 16,
        Refusal::NothingToUndo => 17,
        Refusal::NothingToRedo => 18,
    }
}

/// Sends what is found of a statement.
#[tactic(auto, using(crate::proofs::ReplyLemmas::item_sent))]
fn send_item<S: Serializer>(out: &mut S, item: &Finding) -> Result<(), S::Error>
    ensures item { OnOk result (SendsValue (item_data item.now)
        (S.written out.old) (S.written out.new)) }
{
    out.begin_map(Some(3))?;
    send_word(out, "check", check_word(item.check))?;
    send_count(out, "id", u64::from(item.id.number()))?;
    send_word(out, "verdict", verdict_word(item.verdict))?;
    out.end_map()
}

/// Sends a list of what is found of statements.
fn send_items<S: Serializer>(out: &mut S, items: &[Finding]) -> Result<(), S::Error>
    ensures list { OnOk result (SendsValue (list_of item_data items.now)
        (S.written out.old) (S.written out.new)) }
{
    out.begin_seq(Some(items.len()))?;
    for item in items {
        send_item(out, item)?;
    }
    out.end_seq()
}

/// Sends a report.
#[tactic(auto, using(crate::proofs::SendingLemmas::one_field), unfolding(crate::specs::Replies::reply_fields))]
fn send_report<S: Serializer>(out: &mut S, items: &[Finding]) -> Result<(), S::Error>
    ensures fields { OnOk result (SendsFields (reply_fields (Reply.Report items.now))
        (S.written out.old) (S.written out.new)) }
{
    out.key("report")?;
    send_items(out, items)
}

/// Sends what is found of a fault.
#[tactic(auto, using(crate::proofs::ReplyLemmas::fault_sent))]
fn send_found<S: Serializer>(out: &mut S, found: &FaultFinding) -> Result<(), S::Error>
    ensures item { OnOk result (SendsValue (fault_data found.now)
        (S.written out.old) (S.written out.new)) }
{
    out.begin_map(Some(3))?;
    send_word(out, "fault", fault_word(found.fault))?;
    send_count(out, "id", u64::from(found.id.number()))?;
    send_word(out, "verdict", fault_verdict_word(found.verdict))?;
    out.end_map()
}

/// Sends what is found of faults.
fn send_all_found<S: Serializer>(out: &mut S, found: &[FaultFinding]) -> Result<(), S::Error>
    ensures list { OnOk result (SendsValue (list_of fault_data found.now)
        (S.written out.old) (S.written out.new)) }
{
    out.begin_seq(Some(found.len()))?;
    for one in found {
        send_found(out, one)?;
    }
    out.end_seq()
}

/// Sends a report of faults.
#[tactic(auto, using(crate::proofs::SendingLemmas::one_field), unfolding(crate::specs::Replies::reply_fields))]
fn send_faults<S: Serializer>(out: &mut S, found: &[FaultFinding]) -> Result<(), S::Error>
    ensures fields { OnOk result (SendsFields (reply_fields (Reply.Faults found.now))
        (S.written out.old) (S.written out.new)) }
{
    out.key("faults")?;
    send_all_found(out, found)
}

/// Sends where a run ended, and by which fault.
#[tactic(auto, using(crate::proofs::SendingLemmas::one_field, crate::proofs::SendingLemmas::two_fields))]
fn send_end<S: Serializer>(out: &mut S, end: &RunEnd) -> Result<(), S::Error>
    ensures fields { OnOk result (SendsFields (end_fields end.now)
        (S.written out.old) (S.written out.new)) }
{
    match end {
        RunEnd::Ended | RunEnd::FuelUsedUp => Ok(()),
        RunEnd::Fault(id, fault) => {
            send_word(out, "fault", fault_word(*fault))?;
            send_count(out, "id", u64::from(id.number()))
        }
        RunEnd::InputsUsedUp(id) => send_count(out, "id", u64::from(id.number())),
    }
}

/// Sends how often a run stood at the location, where that was counted.
#[tactic(auto, using(crate::proofs::SendingLemmas::one_field))]
fn send_reached<S: Serializer>(out: &mut S, reached: Option<u64>) -> Result<(), S::Error>
    ensures fields { OnOk result (SendsFields (reached_fields reached)
        (S.written out.old) (S.written out.new)) }
{
    match reached {
        Some(count) => send_count(out, "reached", count),
        None => Ok(()),
    }
}

/// Sends the reply of a run.
#[tactic(auto, using(crate::proofs::SendingLemmas::more_fields, crate::proofs::SendingLemmas::one_field), unfolding(crate::specs::Replies::reply_fields))]
fn send_run<S: Serializer>(out: &mut S, end: &RunEnd, reached: Option<u64>) -> Result<(), S::Error>
    ensures fields { OnOk result (SendsFields (reply_fields (Reply.Run end.now reached))
        (S.written out.old) (S.written out.new)) }
{
    send_end(out, end)?;
    send_reached(out, reached)?;
    send_word(out, "run", end_word(end))
}

/// Sends where a program's fault is.
fn send_fault<S: Serializer>(out: &mut S, fault: &ProgramFault) -> Result<(), S::Error>
    ensures fields { OnOk result (SendsFields (fault_fields fault.now)
        (S.written out.old) (S.written out.new)) }
{
    send_count(out, "at", u64::from(fault.at.number()))?;
    send_text(out, "name", fault.name.as_slice())?;
    send_text(out, "proc", fault.proc.as_slice())
}

/// Sends where the cause of a refusal is.
#[tactic(auto, using(crate::proofs::SendingLemmas::two_fields))]
fn send_place<S: Serializer>(out: &mut S, refusal: &Refusal) -> Result<(), S::Error>
    ensures fields { OnOk result (SendsFields (place_fields refusal.now)
        (S.written out.old) (S.written out.new)) }
{
    match refusal {
        Refusal::Unread { at, name } => {
            send_count(out, "at", *at)?;
            send_text(out, "name", name.as_slice())
        }
        Refusal::IllFormed(fault) | Refusal::Limit(fault) => send_fault(out, fault),
        _ => Ok(()),
    }
}

/// Sends a refusal.
#[tactic(auto, using(crate::proofs::SendingLemmas::more_fields, crate::proofs::SendingLemmas::one_field), unfolding(crate::specs::Replies::reply_fields))]
fn send_refusal<S: Serializer>(out: &mut S, refusal: &Refusal) -> Result<(), S::Error>
    ensures fields { OnOk result (SendsFields (reply_fields (Reply.Refused refusal.now))
        (S.written out.old) (S.written out.new)) }
{
    send_place(out, refusal)?;
    send_count(out, "refused", refusal_number(refusal))
}

/// Sends the fields of a reply.
#[tactic(auto, using(crate::proofs::SendingLemmas::one_field, crate::proofs::SendingLemmas::two_fields), unfolding(crate::specs::Replies::reply_fields))]
fn send_fields<S: Serializer>(out: &mut S, reply: &Reply) -> Result<(), S::Error>
    ensures fields { OnOk result (SendsFields (reply_fields reply.now)
        (S.written out.old) (S.written out.new)) }
{
    match reply {
        Reply::State(text) => send_text(out, "state", text.as_slice()),
        Reply::Over { head, chain } => {
            send_ids(out, "chain", chain.sites())?;
            send_count(out, "over", u64::from(head.number()))
        }
        Reply::Report(items) => send_report(out, items.as_slice()),
        Reply::Faults(found) => send_faults(out, found.as_slice()),
        Reply::Cost { cost, kept } => {
            send_count(out, "cost", *cost)?;
            send_count(out, "kept", *kept)
        }
        Reply::Program { next, text } => {
            send_count(out, "next", u64::from(*next))?;
            send_text(out, "program", text.as_slice())
        }
        Reply::Listing(text) => send_text(out, "listing", text.as_slice()),
        Reply::Run { end, reached } => send_run(out, end, *reached),
        Reply::Next(next) => send_count(out, "next", u64::from(*next)),
        Reply::Why(ids) => send_ids(out, "why", ids.as_slice()),
        Reply::Ticket(ticket) => send_count(out, "ticket", *ticket),
        Reply::Pending(filled) => send_count(out, "pending", *filled),
        Reply::Cancelled(ticket) => send_count(out, "cancelled", *ticket),
        Reply::Refused(refusal) => send_refusal(out, refusal),
    }
}

/// How many fields tell where a run ended.
fn end_count(end: &RunEnd) -> usize
    ensures count { result ≡ length (end_fields end.now) }
{
    match end {
        RunEnd::Ended | RunEnd::FuelUsedUp => 0,
        RunEnd::Fault(_, _) => 2,
        RunEnd::InputsUsedUp(_) => 1,
    }
}

/// How many fields tell how often a run stood at the location.
fn reached_count(reached: Option<u64>) -> usize
    ensures count { result ≡ length (reached_fields reached) }
{
    match reached {
        Some(_) => 1,
        None => 0,
    }
}

/// How many fields tell where the cause of a refusal is.
fn place_count(refusal: &Refusal) -> usize
    ensures count { result ≡ length (place_fields refusal.now) }
{
    match refusal {
        Refusal::Unread { .. } => 2,
        Refusal::IllFormed(_) | Refusal::Limit(_) => 3,
        _ => 0,
    }
}

/// How many fields a reply has.
#[tactic(auto, unfolding(crate::specs::Replies::reply_fields))]
fn field_count(reply: &Reply) -> usize
    ensures count { result ≡ length (reply_fields reply.now) }
{
    match reply {
        Reply::Over { .. } | Reply::Cost { .. } | Reply::Program { .. } => 2,
        Reply::Run { end, reached } => end_count(end) + reached_count(*reached) + 1,
        Reply::Refused(refusal) => place_count(refusal) + 1,
        _ => 1,
    }
}

impl Described for Reply {
    ghost writes = { λ reply. SendsValue (object_of (reply_fields reply)) };
}

impl Serialize for Reply {
    fn serialize<S: Serializer>(&self, out: &mut S) -> Result<(), S::Error> {
        out.begin_map(Some(field_count(self)))?;
        send_fields(out, self)?;
        out.end_map()
    }
}

/// The line of a reply: compact JSON with its keys in order, and LF. It takes time linear in the line.
#[tactic(auto, unfolding(crate::specs::Replies::reply_text))]
pub fn reply_line(alloc: Global, reply: &Reply) -> Result<Vec<u8>, Memory>
    ensures line { IfOk result (λ line. line.items ≡ reply_text reply.now) }
{
    let Ok(mut line) = serde_json::to_vec(alloc, reply) else {
        return Err(Memory);
    };
    line.push(b'\n')?;
    Ok(line)
}
