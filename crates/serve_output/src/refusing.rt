//! Sources that are refused.
ghost use Rattle.std.specs.Prelude.{◌≡◌, IfOk};
ghost use Rattle.io_edge.specs.Outside.{Rose};
ghost use Rattle.request_json.specs.declared.reply.Reply.TheVariants as r;
ghost use Rattle.request_json.specs.Replies.{reply_text};
ghost use Rattle.serve_output.specs.Ends.{EndsBy, WritesOutput};
ghost use Rattle.serve_output.specs.Output.{refused};

use crate::status::Status;
use base_values::Memory;
use io_edge::{Failed, Sink};
use request_json::{Refusal, Reply, reply_line};
use serve_script::write_all;
use std::alloc::Global;

/// The line of a refusal.
fn refusal_line(alloc: Global, why: Refusal) -> Result<Vec<u8>, Memory>
    ensures line { IfOk result (λ v. v.items ≡ reply_text (r.Refused why)) }
{
    reply_line(alloc, &Reply::Refused(why))
}

/// Refuses a source: its refusal is written as a line.
pub(crate) fn refuse_source<O: Sink>(alloc: Global, why: Refusal, out: &mut O) -> Status
    ensures ends { EndsBy Status.Source (Rose (O.faults out.old) (O.faults out.new)) result }
    ensures wrote { WritesOutput result (refused why)
        (O.told out.old) (O.told out.new) }
{
    let Ok(line) = refusal_line(alloc, why) else {
        return Status::Memory;
    };
    match write_all(out, line.as_slice()) {
        Ok(()) => Status::Source,
        Err(Failed) => Status::Sink,
    }
}
