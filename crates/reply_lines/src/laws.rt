//! The theorems, each the contract of a function that does nothing.
ghost use Rattle.reply_lines.specs.OneLine.{RepliesAreLines};
ghost use Rattle.reply_lines.specs.Refused.{RefusalsKeep};
ghost use Rattle.reply_lines.specs.Replied.{OneForEach, RepliesAreTold};

use domain_laws::Domain;

/// The text of each reply is one line with its end.
pub fn replies_are_lines()
    ensures line { RepliesAreLines }
{}

/// The replies to some lines are as many lines, each with its end. So the bytes tell them: where two machines reply the same
/// to all lines, they reply the same to the first ones.
pub fn each_line_has_one_reply<D: Domain, E: Domain>()
    ensures one { (d : D) → OneForEach (D.operations d) }
    ensures told { (d : D) (e : E) → RepliesAreTold (D.operations d) (E.operations e) }
{}

/// A line that is refused leaves the machine as it is; but a step of an open ticket whose question the present program
/// refuses closes that ticket, and changes nothing else.
pub fn refusals_keep<D: Domain>()
    ensures keeps { (d : D) → RefusalsKeep (D.operations d) }
{}
