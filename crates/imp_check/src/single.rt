//! Statements by themselves, over the variables of their procedure.
ghost use Rattle.std.specs.Prelude.{◌≡◌, [], IfOk, None};
ghost use Rattle.imp_check.specs.Names.{variables};
ghost use Rattle.imp_check.specs.Programs.{variables_fault};
ghost use Rattle.imp_check.specs.Slots.{layout_in};
ghost use Rattle.imp_check.specs.Entries.{form_in, resolver_at};
ghost use Rattle.imp_check.specs.Single.{FitsAlone, own_fault};

use crate::Fault;
use crate::entries::form_in;
use crate::entry::{ProcHeader, SlotForm};
use crate::resolve::Resolver;
use crate::slots::Slots;
use crate::statements::{action_fault, condition_fault};
use crate::variables::Variables;
use base_values::Memory;
use imp_syntax::{Proc, Stmt, StmtNode};
use std::alloc::Global;

/// The fault of a simple statement in a procedure, or of the condition of an if or while, without those of the statements
/// inside it; `None` for a break and for a call, whose faults are not their own alone. It takes time in proportion to
/// the statement, times the variables of the procedure.
#[tactic(auto, using(crate::proofs::SingleLemmas::action_alone, crate::proofs::SingleLemmas::condition_alone))]
pub fn own_fault(proc: &Proc, stmt: &Stmt) -> Option<Fault>
    requires fine { variables_fault [] (variables proc.now) ≡ None }
    ensures is { result ≡ own_fault (variables proc.now) stmt.now }
    ensures fits { result ≡ None → FitsAlone proc.now stmt.now }
{
    let variables = Variables::of(proc);
    match stmt.node() {
        StmtNode::Simple(action) => action_fault(&variables, action),
        StmtNode::If(cond, _, _) => condition_fault(&variables, cond),
        StmtNode::While(cond, _) => condition_fault(&variables, cond),
        StmtNode::Break => None,
        StmtNode::Call(_) => None,
    }
}

/// What a statement does over the slots of a procedure, before which no procedure is known that a call may name. It takes
/// time in proportion to the statement without those inside it, times the variables of the procedure, and fails only
/// when memory runs out.
#[tactic(auto, using(crate::proofs::SingleLemmas::few_numbers, crate::proofs::SingleLemmas::few_links))]
pub fn own_form(alloc: Global, head: &ProcHeader, stmt: &Stmt) -> Result<SlotForm, Memory>
    requires fine { variables_fault [] (variables head.now.bare) ≡ None }
    requires layout { head.now.layout ≡ layout_in head.now.bare }
    ensures is { IfOk result (λ form. form ≡ form_in (resolver_at [] head.now.bare) stmt.now) }
{
    let slots = Slots::of(head.layout.clone()?);
    let resolver = Resolver::new(&slots, &[], &[]);
    form_in(alloc, &resolver, stmt)
}
