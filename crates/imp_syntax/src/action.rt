//! What simple statements do.
use crate::{Cond, Expr, Side};
use base_values::{Items, Text};

/// What a simple statement does that is neither a call nor a break. The variable that it sets stands first.
#[derive(Debug, Drop)]
pub enum Action {
    /// `skip`
    Skip,
    /// `assert c`
    Assert(Cond),
    /// `x = e`; `x = y` whatever the kind
    Assign(Text, Expr),
    /// `x = input`
    Input(Text),
    /// `x = array e`
    MakeArray(Text, Expr),
    /// `x = null`
    SetNull(Text),
    /// `x = new`
    MakeCell(Text),
    /// `x = a[e]`
    ReadElement(Text, Text, Expr),
    /// `x = q.next`
    ReadNext(Text, Text),
    /// `x = q.item`
    ReadItem(Text, Text),
    /// `a[e] = f`
    WriteElement(Text, Expr, Expr),
    /// `p.next = q`
    WriteNext(Text, Text),
    /// `p.item = e`
    WriteItem(Text, Expr),
}

/// A call.
#[derive(Debug, Drop)]
pub struct Call {
    /// The variable that takes the result, if any.
    pub target: Option<Text>,
    pub callee: Text,
    pub arguments: Items<Side>,
}
