//! Questions, and steps of tickets.
ghost use Rattle.std.specs.Prelude.{◌≡◌};
ghost use Rattle.daig_machine.specs.Turns.{missing_for_faults, missing_for_report};
ghost use Rattle.serve_answers.specs.Turns.{faults_turn, report_turn, state_turn, why_turn};
ghost use Rattle.serve_session.specs.Followed.{query_refusal, FillsOrTurns, TakesTurn};
ghost use Rattle.serve_session.specs.Followed.{FillsOnQuery, TellsAnswer, KeepsDomain};
ghost use Rattle.serve_session.specs.Followed.{OpensAtMostOne};

use crate::written::{line_of, refused_if};
use base_values::Memory;
use daig_graph::Value;
use daig_session::{QueryError, Session};
use domain_laws::{Domain, Steps};
use fault_words::{FaultVerdict, with_verdict};
use imp_syntax::Location;
use request_json::{Query, Refusal, Reply};
use serve_replies::{numbers_of, over_reply, state_reply};
use std::alloc::Global;
use std::sync::ledger::Ledger;

/// The reply for what is known at a location.
pub(crate) fn value_line<D: Domain>(
    alloc: Global,
    session: &Session<D>,
    at: &Location,
    value: &Value<D::State>,
) -> Result<Vec<u8>, Memory>
    ensures line { TellsAnswer D.operations session.now at.now value.now result }
{
    let reply = match value {
        Value::State(state) => state_reply(
            alloc,
            session.domain(),
            &session.program().view(),
            at,
            state,
        )?,
        Value::Over { head, chain } => over_reply(alloc, *head, chain.chain())?,
    };
    line_of(alloc, reply)
}

/// Why a question has no answer; nothing when memory runs out.
fn query_refusal(error: QueryError) -> Option<Refusal>
    ensures is { result ≡ query_refusal error }
{
    match error {
        QueryError::Refused(why) => Some(Refusal::Query(why)),
        QueryError::Memory => None,
    }
}

/// The state at a location under a call string.
pub(crate) fn state_line<D: Domain, L: Ledger>(
    alloc: Global,
    session: &mut Session<D>,
    query: &Query,
    steps: &mut Steps<L>,
) -> Result<Vec<u8>, Memory>
    ensures domain { KeepsDomain session.old session.new }
    ensures rises { OpensAtMostOne session.old session.new }
    ensures turn { TakesTurn D.operations session.old session.new
        (λ dom. state_turn dom query.now) result }
    ensures between { FillsOnQuery D.operations session.old session.new query.now
        state_turn result }
{
    let string = numbers_of(alloc, &query.string)?;
    match session.query(alloc, &query.at, string.as_slice(), steps) {
        Ok(value) => value_line(alloc, session, &query.at, &value),
        Err(error) => refused_if(alloc, query_refusal(error)),
    }
}

/// The statements that the answer at a location under a call string depends on.
pub(crate) fn why_line<D: Domain, L: Ledger>(
    alloc: Global,
    session: &mut Session<D>,
    query: &Query,
    steps: &mut Steps<L>,
) -> Result<Vec<u8>, Memory>
    ensures domain { KeepsDomain session.old session.new }
    ensures rises { OpensAtMostOne session.old session.new }
    ensures turn { TakesTurn D.operations session.old session.new
        (λ dom. why_turn dom query.now) result }
    ensures between { FillsOnQuery D.operations session.old session.new query.now why_turn result }
{
    let string = numbers_of(alloc, &query.string)?;
    match session.why(alloc, &query.at, string.as_slice(), steps) {
        Ok(stmts) => line_of(alloc, Reply::Why(stmts)),
        Err(error) => refused_if(alloc, query_refusal(error)),
    }
}

/// The findings of all checks.
pub(crate) fn report_line<D: Domain, L: Ledger>(
    alloc: Global,
    session: &mut Session<D>,
    steps: &mut Steps<L>,
) -> Result<Vec<u8>, Memory>
    ensures domain { KeepsDomain session.old session.new }
    ensures rises { OpensAtMostOne session.old session.new }
    ensures turn { TakesTurn D.operations session.old session.new report_turn result }
    ensures between { FillsOrTurns D.operations session.old session.new missing_for_report
        report_turn result }
{
    let findings = session.report(alloc, steps)?;
    line_of(alloc, Reply::Report(findings))
}

/// What is found of faults: of those that have this verdict, where one is given.
pub(crate) fn faults_line<D: Domain, L: Ledger>(
    alloc: Global,
    session: &mut Session<D>,
    only: Option<FaultVerdict>,
    steps: &mut Steps<L>,
) -> Result<Vec<u8>, Memory>
    ensures domain { KeepsDomain session.old session.new }
    ensures rises { OpensAtMostOne session.old session.new }
    ensures turn { TakesTurn D.operations session.old session.new
        (λ dom. faults_turn dom only) result }
    ensures between { FillsOrTurns D.operations session.old session.new missing_for_faults
        (λ dom. faults_turn dom only) result }
{
    let findings = session.faults(alloc, steps)?;
    let told = with_verdict(alloc, only, findings)?;
    line_of(alloc, Reply::Faults(told))
}
