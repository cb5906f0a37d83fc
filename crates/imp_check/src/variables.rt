//! The variables of procedures.
ghost use Rattle.std.specs.Prelude.{◌≡◌, ◌++◌};
ghost use Rattle.std.specs.Option.{option_copied};
ghost use Rattle.imp_check.specs.Names.{kind_of, outcomes, variables};

use crate::names::{kind_of, same_name};
use base_values::Text;
use imp_syntax::{Declaration, Proc, VariableKind};
use std::marker::Model;

/// The variables of a procedure, seen as their list: parameters, result, locals.
#[derive(Drop)]
pub(crate) struct Variables<'a> {
    parameters: &'a [Declaration],
    outcome: Option<&'a Declaration>,
    locals: &'a [Declaration],
}

impl<'a> Model for Variables<'a> {
    ghost use Rattle.std.specs.Prelude.{List, ◌++◌};
    ghost use Rattle.std.specs.Option.{option_copied};
    ghost use Rattle.std.specs.Coded.{coded_list};
    ghost use Rattle.imp_syntax.specs.declared.words.Declaration.{Declaration};
    ghost use Rattle.imp_syntax.specs.ProgramCode.{declaration_code};
    ghost use Rattle.imp_check.specs.Names.{outcomes};

    ghost Value = { List Declaration };

    ghost coded = { coded_list declaration_code };

    ghost view = { λ a. a.parameters.now ++ outcomes (option_copied a.outcome) ++ a.locals.now };
}

impl<'a> Variables<'a> {
    /// The variables of a procedure.
    pub(crate) fn of(proc: &'a Proc) -> Variables<'a>
        ensures is { result ≡ variables proc.now }
    {
        Variables {
            parameters: proc.parameters(),
            outcome: proc.outcome(),
            locals: proc.locals(),
        }
    }

    /// These variables.
    #[tactic(auto, using(crate::proofs::SingleLemmas::none_more))]
    pub(crate) fn listed(all: &'a [Declaration]) -> Variables<'a>
        ensures is { result ≡ all.now }
    {
        Variables {
            parameters: all,
            outcome: None,
            locals: &[],
        }
    }

    /// The kind of the variable of this name.
    #[tactic(auto, using(crate::proofs::SingleLemmas::kind_here, crate::proofs::SingleLemmas::kind_later))]
    #[inline(always)]
    pub(crate) fn kind_of(&self, name: &Text) -> Option<VariableKind>
        ensures is { result ≡ kind_of self.now name.now }
    {
        match kind_of(self.parameters, name) {
            Some(kind) => Some(kind),
            None => kind_after(self.outcome, self.locals, name),
        }
    }
}

/// The kind of the first of a result and variables after it that has this name.
fn kind_after(
    outcome: Option<&Declaration>,
    locals: &[Declaration],
    name: &Text,
) -> Option<VariableKind>
    ensures is { result ≡ kind_of (outcomes (option_copied outcome.entry) ++ locals.now) name.now }
{
    if let Some(outcome) = outcome {
        if same_name(&outcome.name, name) {
            return Some(outcome.kind);
        }
    }
    kind_of(locals, name)
}
