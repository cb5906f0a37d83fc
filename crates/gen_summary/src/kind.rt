//! The kinds of replies that are counted.
ghost use Rattle.std.specs.Prelude.{◌≡◌};
ghost use Rattle.request_json.specs.declared.reply.Reply.{Reply};
ghost use Rattle.request_json.specs.Replies.{reply_text};
ghost use Rattle.gen_summary.specs.Summary.{kind_in, kind_of};

/// The kind of a reply.
#[derive(Clone, Copy, Debug, PartialEq, Eq)]
pub enum ReplyKind {
    /// It tells the next number: an edit is made.
    Next,
    /// It tells a state.
    State,
    /// It tells a loop that used up its budget.
    Over,
    /// It tells a cost.
    Cost,
    /// It tells why a request is refused.
    Refused,
    /// It tells none of these.
    Other,
}

/// The kind of a line.
#[tactic(auto, unfolding(crate::specs::Summary::kind_in))]
fn kind_in(line: &[u8]) -> ReplyKind
    ensures is { result ≡ kind_in line.now }
{
    if line.starts_with(b"{\"state\":") {
        ReplyKind::State
    } else if line.starts_with(b"{\"chain\":") {
        ReplyKind::Over
    } else if line.starts_with(b"{\"cost\":") {
        ReplyKind::Cost
    } else if line.starts_with(b"{\"next\":") {
        ReplyKind::Next
    } else if line.starts_with(b"{\"refused\":") || line.starts_with(b"{\"at\":") {
        ReplyKind::Refused
    } else {
        ReplyKind::Other
    }
}

/// The kind of the reply whose line this is.
pub(crate) fn kind_of(line: &[u8]) -> ReplyKind
    ensures is { (reply : Reply) → line.now ≡ reply_text reply → result ≡ kind_of reply }
{
    kind_in(line)
}
