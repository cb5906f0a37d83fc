//! Procedures and programs.
ghost use Rattle.std.specs.Prelude.{◌≡◌, [], ◌∷◌, ◌++◌, IfOk};
ghost use Rattle.std.specs.Option.{option_copied};

use crate::{Block, Declaration};
use base_values::{Items, Memory, Text};
use std::alloc::{AllocError, Global};
use std::marker::Model;
use std::rc::Rc;

/// A procedure, seen as plain data. Copies share it.
#[derive(Debug, Drop)]
pub struct Proc {
    head: Rc<ProcParts>,
    body: Block,
}

/// All of a procedure but its body.
#[derive(Debug, Drop)]
struct ProcParts {
    name: Text,
    parameters: Items<Declaration>,
    outcome: Option<Declaration>,
    locals: Items<Declaration>,
}

impl Model for Proc {
    ghost use Rattle.imp_syntax.specs.Plain.{Procedure};
    ghost use Rattle.imp_syntax.specs.ProgramCode.{procedure_code};

    ghost Value = { Procedure };

    ghost coded = { procedure_code };

    ghost use Rattle.imp_syntax.specs.ProcViews.{procedure_of};

    ghost view = { λ a. procedure_of a.head.value a.body };
}

impl Proc {
    /// The procedure of these parts. It fails only when memory runs out.
    pub fn new(
        alloc: Global,
        name: Text,
        parameters: Items<Declaration>,
        outcome: Option<Declaration>,
        locals: Items<Declaration>,
        body: Block,
    ) -> Result<Proc, Memory>
        ensures is { IfOk result (λ p. p ≡ record {
          name = name;
          parameters = parameters;
          outcome = outcome;
          locals = locals;
          body = body;
        }) }
    {
        let head = ProcParts {
            name,
            parameters,
            outcome,
            locals,
        };
        let head = Rc::new(alloc, head)?;
        Ok(Proc { head, body })
    }

    /// Its name.
    pub fn name(&self) -> &Text
        ensures is { result.now ≡ self.now.name }
    {
        &self.head.name
    }

    /// Its parameters, in order.
    pub fn parameters(&self) -> &[Declaration]
        ensures is { result.now ≡ self.now.parameters }
    {
        self.head.parameters.as_slice()
    }

    /// Its result, if it has one.
    pub fn outcome(&self) -> Option<&Declaration>
        ensures is { option_copied result ≡ self.now.outcome }
    {
        self.head.outcome.as_ref()
    }

    /// Its local variables, in order.
    pub fn locals(&self) -> &[Declaration]
        ensures is { result.now ≡ self.now.locals }
    {
        self.head.locals.as_slice()
    }

    /// Its body.
    pub fn body(&self) -> &Block
        ensures is { result.now ≡ self.now.body }
    {
        &self.body
    }

    /// The procedure with another body. It shares all else, and fails only when memory runs out.
    pub fn with_body(&self, body: Block) -> Result<Proc, Memory>
        ensures is { IfOk result (λ p. p ≡ record self.now { body = body }) }
    {
        let head = self.head.clone()?;
        Ok(Proc { head, body })
    }

    /// The procedure with a further local variable, the last one. It fails only when memory runs out.
    pub fn with_local(&self, alloc: Global, local: Declaration) -> Result<Proc, Memory>
        ensures is { IfOk result (λ p. p ≡ record self.now {
          locals = self.now.locals ++ local
              ∷ [];
        }) }
    {
        let mut locals = copied(alloc, self.locals())?;
        locals.push(local)?;
        let name = self.head.name.clone()?;
        let parameters = copied(alloc, self.parameters())?;
        let outcome = match &self.head.outcome {
            Some(outcome) => Some(outcome.clone()?),
            None => None,
        };
        let body = self.body.clone()?;
        Proc::new(alloc, name, parameters, outcome, locals, body)
    }
}

/// Copies of declarations.
fn copied(alloc: Global, declarations: &[Declaration]) -> Result<Items<Declaration>, Memory>
    ensures is { IfOk result (λ copies. copies ≡ declarations.now) }
{
    let mut copies = Items::with_capacity(alloc, declarations.len())?;
    for declaration in declarations {
        copies.push(declaration.clone()?)?;
    }
    Ok(copies)
}

impl Clone for Proc {
    ghost is_clone = { λ p copy. copy ≡ p };

    fn clone(&self) -> Result<Proc, AllocError> {
        let head = self.head.clone()?;
        let body = self.body.clone()?;
        Ok(Proc { head, body })
    }
}

/// A program, seen as the list of its procedures. Copies share it.
#[derive(Debug, Drop)]
pub struct Program {
    procs: Rc<Items<Proc>>,
}

impl Model for Program {
    ghost use Rattle.std.specs.Prelude.{List};
    ghost use Rattle.imp_syntax.specs.Plain.{Procedure};
    ghost use Rattle.imp_syntax.specs.ProgramCode.{program_code};

    ghost Value = { List Procedure };

    ghost coded = { program_code };

    ghost view = { λ a. a.procs.value };
}

impl Program {
    /// The program of these procedures, in the order of the text. It fails only when memory runs out.
    pub fn new(alloc: Global, procs: Items<Proc>) -> Result<Program, Memory>
        ensures is { IfOk result (λ p. p ≡ procs) }
    {
        let procs = Rc::new(alloc, procs)?;
        Ok(Program { procs })
    }

    /// The procedures, in the order of the text.
    pub fn procs(&self) -> &[Proc]
        ensures is { result.now ≡ self.now }
    {
        self.procs.as_slice()
    }
}

impl Clone for Program {
    ghost is_clone = { λ p copy. copy ≡ p };

    fn clone(&self) -> Result<Program, AllocError> {
        let procs = self.procs.clone()?;
        Ok(Program { procs })
    }
}
