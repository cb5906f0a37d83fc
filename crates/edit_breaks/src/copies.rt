//! Copies of what is known of a statement.
ghost use Rattle.std.specs.Prelude.{◌≡◌, IfOk};

use base_values::Memory;
use imp_check::{Entry, SlotForm};

/// A copy of a form.
///
/// # Errors
///
/// [`Memory`] alone.
pub fn form_again(form: &SlotForm) -> Result<SlotForm, Memory>
    ensures is { IfOk result (λ copy. copy ≡ form.now) }
{
    match form {
        SlotForm::Stmt(stmt) => Ok(SlotForm::Stmt(stmt.clone()?)),
        SlotForm::Cond(cond) => Ok(SlotForm::Cond(cond.clone()?)),
        SlotForm::Call(call, callee) => Ok(SlotForm::Call(call.clone()?, *callee)),
    }
}

/// A copy of an entry.
///
/// # Errors
///
/// [`Memory`] alone.
pub fn entry_again(entry: &Entry) -> Result<Entry, Memory>
    ensures is { IfOk result (λ copy. copy ≡ entry.now) }
{
    let breaks = entry.breaks.clone()?;
    let part = entry.part.clone()?;
    let form = form_again(&entry.form)?;
    Ok(Entry {
        number: entry.number,
        part,
        form,
        context: entry.context,
        front: entry.front,
        next: entry.next,
        inner: entry.inner,
        other: entry.other,
        breaks,
    })
}
