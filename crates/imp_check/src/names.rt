//! Names of variables and procedures.
ghost use Rattle.std.specs.Prelude.{◌≡◌, ◌<◌, ◌≤◌, ◌^◌, length};
ghost use Rattle.std.specs.Str.{bytes_eq};
ghost use Rattle.std.specs.Option.{option_copied};
ghost use Rattle.imp_check.specs.Names.{kind_of, procedure_named, place_named, is_named, is_known, is_int, is_array, is_link};

use base_values::Text;
use imp_syntax::{Declaration, Proc, VariableKind};

/// The kind of the first variable of this name.
pub(crate) fn kind_of(variables: &[Declaration], name: &Text) -> Option<VariableKind>
    ensures is { result ≡ kind_of variables.now name.now }
{
    for variable in variables {
        if same_name(&variable.name, name) {
            return Some(variable.kind);
        }
    }
    None
}

/// The first procedure of this name.
pub(crate) fn procedure_named<'a>(procs: &'a [Proc], name: &Text) -> Option<&'a Proc>
    ensures is { option_copied result ≡ procedure_named procs.now name.now }
{
    for proc in procs {
        if same_name(proc.name(), name) {
            return Some(proc);
        }
    }
    None
}

/// Whether a procedure has this name.
pub(crate) fn is_named(procs: &[Proc], name: &Text) -> bool
    ensures is { result ≡ is_named procs.now name.now }
{
    for proc in procs {
        if same_name(proc.name(), name) {
            return true;
        }
    }
    false
}

/// The place of the first procedure of this name, or how many there are.
pub(crate) fn place_named(procs: &[Proc], name: &Text) -> usize
    ensures is { result ≡ place_named procs.now name.now }
    ensures within { result ≤ length procs.now }
{
    for (i, proc) in procs.iter().enumerate() {
        if same_name(proc.name(), name) {
            return i;
        }
    }
    procs.len()
}

pub(crate) fn same_name(a: &Text, b: &Text) -> bool
    ensures is { result ≡ bytes_eq a.now b.now }
{
    a == b
}

pub(crate) fn is_int(kind: Option<VariableKind>) -> bool
    ensures is { result ≡ is_int kind }
{
    matches!(kind, Some(VariableKind::Int))
}

pub(crate) fn is_array(kind: Option<VariableKind>) -> bool
    ensures is { result ≡ is_array kind }
{
    matches!(kind, Some(VariableKind::Array))
}

pub(crate) fn is_link(kind: Option<VariableKind>) -> bool
    ensures is { result ≡ is_link kind }
{
    matches!(kind, Some(VariableKind::List))
}
