//! Replies as lines.
ghost use Rattle.serve_session.specs.Followed.{Tells, IsLineOf};

use base_values::Memory;
use request_json::{Refusal, Reply, reply_line};
use std::alloc::Global;

/// The line of a reply.
pub(crate) fn line_of(alloc: Global, reply: Reply) -> Result<Vec<u8>, Memory>
    ensures line { IsLineOf reply result }
{
    reply_line(alloc, &reply)
}

/// The line of a refusal.
pub(crate) fn refused(alloc: Global, why: Refusal) -> Result<Vec<u8>, Memory>
    ensures line { IsLineOf (Reply.Refused why) result }
{
    line_of(alloc, Reply::Refused(why))
}

/// The line of a refusal, where there is one. Else memory is wanting.
pub(crate) fn refused_if(alloc: Global, why: Option<Refusal>) -> Result<Vec<u8>, Memory>
    ensures tells { Tells result (λ v. v.items) why }
{
    match why {
        Some(why) => refused(alloc, why),
        None => Err(Memory),
    }
}
