//! The first fault of statements.
ghost use Rattle.std.specs.Prelude.{◌≡◌, None, true};
ghost use Rattle.std.specs.Option.{option_copied};
ghost use Rattle.imp_syntax.specs.Plain.{number_of};
ghost use Rattle.imp_syntax.specs.ActionViews.{action_of, operands_of};
ghost use Rattle.imp_syntax.specs.Views.{operand_of};
ghost use Rattle.imp_check.specs.Faults.{at};
ghost use Rattle.imp_check.specs.Small.{small_operands, small_condition, small_action, small_statement, small_block};
ghost use Rattle.imp_check.specs.Statements.{action_fault, condition_fault, callee_fault, knows_target, same_length, gives_result, fits_parameter, fit_parameters, alike, fits_result, arguments_fault, call_fault, statement_fault, block_fault};

use crate::Fault;
use crate::fault::Spot;
use crate::kinds::{
    array_operand, fits_action, fits_condition, int_operand, knows, knows_action, knows_condition,
    knows_operands, link_operand,
};
use crate::names::{is_array, is_int, is_link, is_named, procedure_named};
use crate::variables::Variables;
use base_values::Text;
use imp_syntax::{
    Action, Block, Call, Cond, Declaration, Proc, Side, Stmt, StmtNode, VariableKind,
};
use std::marker::Model;

/// What the statements of a procedure may name: the procedures before it, itself and those after it, its variables.
#[derive(Drop)]
pub(crate) struct Scope<'a> {
    earlier: &'a [Proc],
    others: &'a [Proc],
    variables: &'a Variables<'a>,
}

impl<'a> Model for Scope<'a> {
    ghost use Rattle.imp_check.specs.Statements as plain;
    ghost use Rattle.imp_check.specs.ScopeCode.{scope_code};

    ghost Value = { plain.Scope };

    ghost coded = { scope_code };

    ghost view = { λ a. record {
      earlier = a.earlier.now;
      others = a.others.now;
      variables = a.variables.now;
    } };
}

impl<'a> Scope<'a> {
    pub(crate) fn new(
        earlier: &'a [Proc],
        others: &'a [Proc],
        variables: &'a Variables<'a>,
    ) -> Scope<'a>
        ensures is { result ≡ record {
          earlier = earlier.now;
          others = others.now;
          variables = variables.now;
        } }
    {
        Scope {
            earlier,
            others,
            variables,
        }
    }
}

fn at(number: u32, fault: Option<Fault>) -> Option<Spot>
    ensures is { result ≡ at number fault }
{
    match fault {
        Some(fault) => Some(Spot { fault, at: number }),
        None => None,
    }
}

#[inline(always)]
pub(crate) fn action_fault(variables: &Variables, action: &Action) -> Option<Fault>
    ensures is { result ≡ action_fault variables.now (action_of action.now) }
    ensures small { result ≡ None → small_action (action_of action.now) ≡ true }
{
    if !knows_action(variables, action) {
        Some(Fault::UnknownName)
    } else if !fits_action(variables, action) {
        Some(Fault::WrongKind)
    } else {
        None
    }
}

pub(crate) fn condition_fault(variables: &Variables, cond: &Cond) -> Option<Fault>
    ensures is { result ≡ condition_fault variables.now cond.now }
    ensures small { result ≡ None → small_condition cond.now ≡ true }
{
    if !knows_condition(variables, cond) {
        Some(Fault::UnknownName)
    } else if !fits_condition(variables, cond) {
        Some(Fault::WrongKind)
    } else {
        None
    }
}

fn callee_fault(scope: &Scope, callee: &Text) -> Option<Fault>
    ensures is { result ≡ callee_fault scope.now callee.now }
{
    if is_named(scope.earlier, callee) {
        None
    } else if is_named(scope.others, callee) {
        Some(Fault::CallsLater)
    } else {
        Some(Fault::UnknownName)
    }
}

fn knows_target(variables: &Variables, target: &Option<Text>) -> bool
    ensures is { result ≡ knows_target variables.now target.now }
{
    match target {
        Some(x) => knows(variables, x),
        None => true,
    }
}

#[tactic(auto, using(crate::proofs::Arguments::same_length_is))]
fn same_length(arguments: &[Side], parameters: &[Declaration]) -> bool
    ensures is { result ≡ same_length (operands_of arguments.now) parameters.now }
{
    arguments.len() == parameters.len()
}

fn gives_result(target: &Option<Text>, outcome: Option<&Declaration>) -> bool
    ensures is { result ≡ gives_result target.now (option_copied outcome.entry) }
{
    target.is_none() || outcome.is_some()
}

fn fits_parameter(variables: &Variables, argument: &Side, kind: VariableKind) -> bool
    ensures is { result ≡ fits_parameter variables.now (operand_of argument.now) kind }
{
    match kind {
        VariableKind::Int => int_operand(variables, argument),
        VariableKind::Array => array_operand(variables, argument),
        VariableKind::List => link_operand(variables, argument),
    }
}

#[tactic(auto, using(crate::proofs::Arguments::fit_step, crate::proofs::Arguments::fit_end))]
fn fit_parameters(variables: &Variables, arguments: &[Side], parameters: &[Declaration]) -> bool
    ensures is { result ≡ fit_parameters variables.now (operands_of arguments.now) parameters.now }
{
    for (i, argument) in arguments.iter().enumerate() {
        let Some(parameter) = parameters.get(i) else {
            return true;
        };
        if !fits_parameter(variables, argument, parameter.kind) {
            return false;
        }
    }
    true
}

fn alike(a: Option<VariableKind>, b: Option<VariableKind>) -> bool
    ensures is { result ≡ alike a b }
{
    (is_int(a) && is_int(b)) || (is_array(a) && is_array(b)) || (is_link(a) && is_link(b))
}

fn fits_result(variables: &Variables, target: &Option<Text>, outcome: Option<&Declaration>) -> bool
    ensures is { result ≡ fits_result variables.now target.now (option_copied outcome.entry) }
{
    match (target, outcome) {
        (Some(x), Some(outcome)) => alike(variables.kind_of(x), Some(outcome.kind)),
        _ => true,
    }
}

fn arguments_fault(variables: &Variables, call: &Call, callee: &Proc) -> Option<Fault>
    ensures is { result ≡ arguments_fault variables.now call.now.target
        (operands_of call.now.arguments) (Some callee.now) }
{
    let arguments = call.arguments.as_slice();
    if !same_length(arguments, callee.parameters())
        || !gives_result(&call.target, callee.outcome())
    {
        Some(Fault::WrongArguments)
    } else if !fit_parameters(variables, arguments, callee.parameters())
        || !fits_result(variables, &call.target, callee.outcome())
    {
        Some(Fault::WrongKind)
    } else {
        None
    }
}

fn call_fault(scope: &Scope, call: &Call) -> Option<Fault>
    ensures is { result ≡ call_fault scope.now call.now.target call.now.callee
        (operands_of call.now.arguments) }
    ensures small { result ≡ None → small_operands (operands_of call.now.arguments) ≡ true }
{
    if !knows_target(scope.variables, &call.target) {
        return Some(Fault::UnknownName);
    }
    if let Some(fault) = callee_fault(scope, &call.callee) {
        return Some(fault);
    }
    if !knows_operands(scope.variables, call.arguments.as_slice()) {
        return Some(Fault::UnknownName);
    }
    match procedure_named(scope.earlier, &call.callee) {
        Some(callee) => arguments_fault(scope.variables, call, callee),
        None => None,
    }
}

/// The first fault of a block, which stands inside a loop of its procedure or not.
#[cycle(faults)]
#[tactic(auto, using(imp_syntax::specs::Blocks::member_smaller, imp_syntax::specs::Blocks::block_rest))]
pub(crate) fn block_fault(scope: &Scope, inside: bool, block: &Block) -> Option<Spot>
    ensures is { result ≡ block_fault scope.now inside block.now }
    ensures small { result ≡ None → small_block block.now ≡ true }
{
    for stmt in block.as_slice() {
        if let Some(spot) = statement_fault(scope, inside, stmt) {
            return Some(spot);
        }
    }
    None
}

#[cycle(faults)]
#[tactic(auto, using(crate::proofs::FewLemmas::at_none))]
fn statement_fault(scope: &Scope, inside: bool, stmt: &Stmt) -> Option<Spot>
    ensures is { result ≡ statement_fault scope.now inside stmt.now }
    ensures small { result ≡ None → small_statement stmt.now ≡ true }
{
    let number = stmt.id().number();
    match stmt.node() {
        StmtNode::Simple(action) => at(number, action_fault(scope.variables, action)),
        StmtNode::Break => {
            if inside {
                None
            } else {
                at(number, Some(Fault::BreakOutside))
            }
        }
        StmtNode::Call(call) => at(number, call_fault(scope, call)),
        StmtNode::If(cond, then, els) => match at(number, condition_fault(scope.variables, cond)) {
            Some(spot) => Some(spot),
            None => match block_fault(scope, inside, then) {
                Some(spot) => Some(spot),
                None => block_fault(scope, inside, els),
            },
        },
        StmtNode::While(cond, body) => match at(number, condition_fault(scope.variables, cond)) {
            Some(spot) => Some(spot),
            None => block_fault(scope, true, body),
        },
    }
}
