//! Procedures, programs and the public texts.
ghost use Rattle.std.specs.Prelude.{◌≡◌, [], ◌++◌, ◌≤◌, codes, IfOk, OnOk, None, false, true};
ghost use Rattle.imp_print.specs.Programs as of_programs;
ghost use Rattle.imp_print.specs.Programs.{signature_text, head_text, procedure_text};
ghost use Rattle.imp_print.specs.Statements.{line, spaces, statement_text};

use crate::declarations::{put_declarations, put_locals, put_outcome};
use crate::lines::put_spaces;
use crate::statements::{begin_line, put_block, put_line, put_stmt};
use base_values::{Memory, Text};
use imp_syntax::{Proc, Program, Stmt};
use std::alloc::Global;

/// Adds a procedure's name and parameters.
fn put_signature(text: &mut Text, procedure: &Proc) -> Result<(), Memory>
    ensures added { OnOk result (text.new ≡ text.old ++ signature_text procedure.now) }
{
    text.append(b"proc ")?;
    text.append(procedure.name().as_slice())?;
    text.append(b"(")?;
    put_declarations(text, procedure.parameters())?;
    text.append(b")")
}

/// Adds a procedure's first line.
fn put_head(
    text: &mut Text,
    listing: bool,
    outermost: &Text,
    procedure: &Proc,
) -> Result<(), Memory>
    ensures added { OnOk result (text.new ≡ text.old ++ line listing None outermost.now
        (head_text procedure.now)) }
{
    begin_line(text, listing, None, outermost)?;
    put_signature(text, procedure)?;
    put_outcome(text, procedure)?;
    text.append(b" {\n")
}

#[tactic(auto, unfolding(crate::specs::Programs::procedure_text))]
fn put_procedure(
    text: &mut Text,
    listing: bool,
    outermost: &Text,
    inside: &Text,
    procedure: &Proc,
) -> Result<(), Memory>
    requires outermost { outermost.now ≡ [] }
    requires inside { inside.now ≡ codes "  " }
    ensures added { OnOk result (text.new ≡ text.old ++ procedure_text listing procedure.now) }
{
    put_head(text, listing, outermost, procedure)?;
    put_locals(text, listing, inside, procedure.locals())?;
    put_block(text, listing, inside, procedure.body())?;
    put_line(text, listing, None, outermost, b"}")
}

fn put_procedures(
    text: &mut Text,
    listing: bool,
    outermost: &Text,
    inside: &Text,
    procedures: &[Proc],
) -> Result<(), Memory>
    requires outermost { outermost.now ≡ [] }
    requires inside { inside.now ≡ codes "  " }
    ensures added { OnOk result (text.new ≡ text.old ++ of_programs.program_text listing
        procedures.now) }
{
    'each: for i in 0..procedures.len() {
        put_procedure(text, listing, outermost, inside, &procedures[i])?;
    }
    Ok(())
}

fn text_of(alloc: Global, listing: bool, program: &Program) -> Result<Text, Memory>
    ensures text { IfOk result (λ text. text ≡ of_programs.program_text listing program.now) }
{
    let mut text = Text::new(alloc);
    let outermost = Text::new(alloc);
    let inside = Text::from_slice(alloc, b"  ")?;
    put_procedures(&mut text, listing, &outermost, &inside, program.procs())?;
    Ok(text)
}

/// The text of a program.
///
/// # Errors
///
/// Out of memory alone.
pub fn program_text(alloc: Global, program: &Program) -> Result<Text, Memory>
    ensures text { IfOk result (λ text. text ≡ of_programs.program_text false program.now) }
{
    text_of(alloc, false, program)
}

/// The listing of a program: its text, each line after the number of the statement that begins
/// there, right in seven places, or blanks, and a space.
///
/// # Errors
///
/// Out of memory alone.
pub fn numbered_text(alloc: Global, program: &Program) -> Result<Text, Memory>
    ensures text { IfOk result (λ text. text ≡ of_programs.program_text true program.now) }
{
    text_of(alloc, true, program)
}

/// The text of a statement, each of its lines `indent` spaces further to the right.
///
/// # Errors
///
/// Out of memory alone.
pub fn stmt_text(alloc: Global, stmt: &Stmt, indent: u32) -> Result<Text, Memory>
    requires within { indent ≤ 66 }
    ensures text { IfOk result (λ text. text ≡ statement_text false (spaces indent) stmt.now) }
{
    let mut right = Text::new(alloc);
    put_spaces(&mut right, indent as usize)?;
    let mut text = Text::new(alloc);
    put_stmt(&mut text, false, &right, stmt)?;
    Ok(text)
}
