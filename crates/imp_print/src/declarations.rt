//! Writing declarations, for `program_text`.
ghost use Rattle.std.specs.Prelude.{◌≡◌, ◌++◌, codes, None, OnOk};
ghost use Rattle.imp_print.specs.Statements.{line};
ghost use Rattle.imp_print.specs.Programs.{kind_text, declaration_text, more_declarations_text, declarations_text, outcome_text, locals_text};

use crate::statements::begin_line;
use base_values::{Memory, Text};
use imp_syntax::{Declaration, Proc, VariableKind};

fn kind_text(kind: VariableKind) -> &'static [u8]
    ensures is { result.now ≡ kind_text kind }
{
    match kind {
        VariableKind::Int => b"int",
        VariableKind::Array => b"array",
        VariableKind::List => b"list",
    }
}

fn put_declaration(text: &mut Text, declaration: &Declaration) -> Result<(), Memory>
    ensures added { OnOk result (text.new ≡ text.old ++ declaration_text declaration.now) }
{
    text.append(declaration.name.as_slice())?;
    text.append(b": ")?;
    text.append(kind_text(declaration.kind))
}

/// Adds declarations with commas between.
pub(crate) fn put_declarations(text: &mut Text, declarations: &[Declaration]) -> Result<(), Memory>
    ensures added { OnOk result (text.new ≡ text.old ++ declarations_text declarations.now) }
{
    match declarations {
        [] => Ok(()),
        [first, rest @ ..] => {
            put_declaration(text, first)?;
            put_more_declarations(text, rest)
        }
    }
}

/// Adds each declaration with a comma before.
fn put_more_declarations(text: &mut Text, declarations: &[Declaration]) -> Result<(), Memory>
    ensures added { OnOk result (text.new ≡ text.old ++ more_declarations_text declarations.now) }
{
    'each: for i in 0..declarations.len() {
        text.append(b", ")?;
        put_declaration(text, &declarations[i])?;
    }
    Ok(())
}

/// Adds the result of a procedure, if it has one.
pub(crate) fn put_outcome(text: &mut Text, procedure: &Proc) -> Result<(), Memory>
    ensures added { OnOk result (text.new ≡ text.old ++ outcome_text procedure.now.outcome) }
{
    match procedure.outcome() {
        None => Ok(()),
        Some(declaration) => {
            text.append(b" -> ")?;
            put_declaration(text, declaration)
        }
    }
}

fn put_local(
    text: &mut Text,
    listing: bool,
    right: &Text,
    local: &Declaration,
) -> Result<(), Memory>
    ensures added { OnOk result (text.new ≡ text.old ++ line listing None right.now
        (codes "var " ++ declaration_text local.now ++ codes ";")) }
{
    begin_line(text, listing, None, right)?;
    text.append(b"var ")?;
    put_declaration(text, local)?;
    text.append(b";\n")
}

/// Adds a line for each local variable.
pub(crate) fn put_locals(
    text: &mut Text,
    listing: bool,
    right: &Text,
    locals: &[Declaration],
) -> Result<(), Memory>
    ensures added { OnOk result (text.new ≡ text.old ++ locals_text listing right.now locals.now) }
{
    'each: for i in 0..locals.len() {
        put_local(text, listing, right, &locals[i])?;
    }
    Ok(())
}
