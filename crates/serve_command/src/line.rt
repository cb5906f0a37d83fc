//! The command whose words `clap` takes apart: the one of `specs/Line.antt`, over which `job_of` is
//! defined.
//!
//! Each step takes the command as far as it is made, or the failure for which it is not, so that the
//! steps follow each other without a test between them.
ghost use Rattle.std.specs.Prelude.{◌≡◌, IfOk, codes, false};
ghost use Rattle.clap.specs.Walk.{rule_of};
ghost use Rattle.clap.specs.Simple.{App, Shape, shape_of, app_of, new_app, with_rule, with_subcommand};
ghost use Rattle.clap.specs.declared.builder.command.Command.TheViews.{out-Command as fields_of};
ghost use Rattle.serve_command.specs.Line.{Makes, option_of, needed_of, word_of, domain_rule, widening_rule, delay_rule, budget_rule, alone, serve_shape, analysis_shape, gen_shape, verify_shape, daig_app};

use clap::{Arg, ArgAction, Command};
use std::alloc::{AllocError, Global};

/// A command as far as it is made.
type Made<'a> = Result<Command<'a>, AllocError>;

/// An option that has a value, with the one that stands for it where it is left out.
fn option_of<'a>(alloc: Global, name: &'a str, default: &'a str) -> Arg<'a>
    ensures rule { rule_of result ≡ option_of name.entry.now default.entry.now }
    ensures local { result.global ≡ false }
{
    Arg::new(alloc, name)
        .long(name)
        .action(ArgAction::Set)
        .default_value(default)
}

/// An option that has a value and has to be there.
fn needed_of<'a>(alloc: Global, name: &'a str) -> Arg<'a>
    ensures rule { rule_of result ≡ needed_of name.entry.now }
    ensures local { result.global ≡ false }
{
    Arg::new(alloc, name)
        .long(name)
        .required(true)
        .action(ArgAction::Set)
}

/// A word that is no option and has to be there.
fn word_of<'a>(alloc: Global, name: &'a str) -> Arg<'a>
    ensures rule { rule_of result ≡ word_of name.entry.now }
    ensures local { result.global ≡ false }
{
    Arg::new(alloc, name).required(true).action(ArgAction::Set)
}

/// The command with one more argument.
fn with_argument<'a>(command: Made<'a>, argument: Arg<'a>) -> Made<'a>
    requires local { argument.global ≡ false }
    ensures makes { (app : App) → Makes command.entry app →
        Makes result (with_rule app (rule_of argument.entry)) }
{
    command?.arg(argument)
}

/// The command with one more option.
fn with_option<'a>(alloc: Global, command: Made<'a>, name: &'a str, default: &'a str) -> Made<'a>
    ensures makes { (app : App) → Makes command.entry app →
        Makes result (with_rule app (option_of name.entry.now default.entry.now)) }
{
    with_argument(command, option_of(alloc, name, default))
}

/// The command with one more option that has to be there.
fn with_needed<'a>(alloc: Global, command: Made<'a>, name: &'a str) -> Made<'a>
    ensures makes { (app : App) → Makes command.entry app →
        Makes result (with_rule app (needed_of name.entry.now)) }
{
    with_argument(command, needed_of(alloc, name))
}

/// The command with one more word that has to be there.
fn with_word<'a>(alloc: Global, command: Made<'a>, name: &'a str) -> Made<'a>
    ensures makes { (app : App) → Makes command.entry app →
        Makes result (with_rule app (word_of name.entry.now)) }
{
    with_argument(command, word_of(alloc, name))
}

/// The command of this name, with the options that say how a program is analysed.
fn with_settings<'a>(alloc: Global, name: &'a str) -> Made<'a>
    ensures makes { Makes result (with_rule (with_rule (with_rule
        (with_rule (new_app name.entry.now) domain_rule) widening_rule) delay_rule)
        budget_rule) }
{
    let command = Ok(Command::new(alloc, name));
    let command = with_option(alloc, command, "domain", "interval");
    let command = with_option(alloc, command, "widening", "thresholds");
    let command = with_option(alloc, command, "delay", "0");
    with_option(alloc, command, "budget", "100")
}

/// The command `serve`.
fn serve<'a>(alloc: Global) -> Made<'a>
    ensures makes { Makes result (alone serve_shape) }
{
    let command = with_settings(alloc, "serve");
    let command = with_option(alloc, command, "memo", "1024");
    with_word(alloc, command, "FILE")
}

/// The command of this name, which analyses the program of a file: `batch`, `cert` or `faults`.
fn analyses<'a>(alloc: Global, name: &'a str) -> Made<'a>
    ensures makes { Makes result (alone (analysis_shape name.entry.now)) }
{
    let command = with_settings(alloc, name);
    with_word(alloc, command, "FILE")
}

/// The command `gen`.
fn generates<'a>(alloc: Global) -> Made<'a>
    ensures makes { Makes result (alone gen_shape) }
{
    let command = Ok(Command::new(alloc, "gen"));
    let command = with_option(alloc, command, "domain", "interval");
    let command = with_needed(alloc, command, "seed");
    with_needed(alloc, command, "size")
}

/// The command `verify`.
fn verifies<'a>(alloc: Global) -> Made<'a>
    ensures makes { Makes result (alone verify_shape) }
{
    let command = Ok(Command::new(alloc, "verify"));
    let command = with_option(alloc, command, "domain", "interval");
    let command = with_word(alloc, command, "FILE");
    with_word(alloc, command, "CERT")
}

/// The command with this one below it.
fn with_below<'a>(command: Made<'a>, below: Command<'a>) -> Made<'a>
    ensures makes { (app : App) → (fields_of below.entry).has_globals ≡ false →
        Makes command.entry app → Makes result (with_subcommand app (shape_of below.entry)) }
{
    command?.subcommand(below)
}

/// The command with one more below it, as far as both are made.
fn with_command<'a>(command: Made<'a>, below: Made<'a>) -> Made<'a>
    ensures makes { (app : App) (shape : Shape) → Makes command.entry app →
        Makes below.entry (alone shape) → Makes result (with_subcommand app shape) }
{
    with_below(command, below?)
}

/// The program's commands.
pub(crate) fn daig<'a>(alloc: Global) -> Made<'a>
    ensures app { IfOk result (λ made. app_of made ≡ daig_app) }
{
    let command = Ok(
        Command::new(alloc, "daig")
            .disable_help_flag(true)
            .disable_help_subcommand(true),
    );
    let command = with_command(command, serve(alloc));
    let command = with_command(command, analyses(alloc, "batch"));
    let command = with_command(command, generates(alloc));
    let command = with_command(command, analyses(alloc, "cert"));
    let command = with_command(command, verifies(alloc));
    with_command(command, analyses(alloc, "faults"))
}
