//! Programs as texts: `specs/Texts.antt`.
ghost use Rattle.std.specs.Prelude.{◌≡◌, IfOk};
ghost use Rattle.serve_replies.specs.Texts.{listing, long_reply, program_reply};

use base_values::{Memory, Text};
use imp_print::{numbered_text, program_text};
use imp_syntax::Program;
use request_json::{Refusal, Reply, reply_line};
use std::alloc::Global;

/// The next statement number, and the program's text.
#[tactic(auto, unfolding(crate::specs::Texts::program_reply))]
pub fn program_reply(alloc: Global, next: u32, program: &Program) -> Result<Reply, Memory>
    ensures reply { IfOk result (λ reply. reply ≡ program_reply next program.now) }
{
    let text = program_text(alloc, program)?;
    Ok(Reply::Program { next, text })
}

/// The program's text with the numbers of its statements.
#[tactic(auto, unfolding(crate::specs::Texts::listing))]
pub fn listing(alloc: Global, program: &Program) -> Result<Text, Memory>
    ensures text { IfOk result (λ text. text ≡ listing program.now) }
{
    numbered_text(alloc, program)
}

/// The reply to a line that is too long.
#[tactic(auto, unfolding(crate::specs::Texts::long_reply))]
pub fn long_line(alloc: Global) -> Result<Vec<u8>, Memory>
    ensures reply { IfOk result (λ v. v.items ≡ long_reply) }
{
    reply_line(alloc, &Reply::Refused(Refusal::LongLine))
}
