//! Why lines, texts and programs are refused: `specs/Refusals.antt`, with the names of `specs/Names.antt`.
ghost use Rattle.std.specs.Prelude.{◌≡◌, IfOk};
ghost use Rattle.serve_replies.specs.Names.{lexical_name, lexical_place, name_of_fault, is_limit};
ghost use Rattle.serve_replies.specs.Refusals.{text_refusal, fault_refusal, line_refusal, place_of};

use base_values::{Memory, Text};
use batch_meaning::QueryRefusal as QueryRefusal;
use imp_check::{Fault, LocatedFault};
use imp_lex::LexError;
use imp_parse::ParseError;
use imp_syntax::StmtId;
use request_json::{ProgramFault, ReadError, Refusal, Reply};
use std::alloc::Global;

/// Why a line is no request, or out of memory.
pub fn line_refusal(error: ReadError) -> Result<Reply, Memory>
    ensures refusal { IfOk result (λ reply. reply ≡ Reply.Refused (line_refusal error)) }
    ensures no_memory { IfOk result (λ _. error ≡ ReadError.Memory → ⊥) }
{
    match error {
        ReadError::NoJson => Ok(Reply::Refused(Refusal::NoJson)),
        ReadError::BadMember => Ok(Reply::Refused(Refusal::BadMember)),
        ReadError::NoRequest => Ok(Reply::Refused(Refusal::NoRequest)),
        ReadError::LongString => Ok(Reply::Refused(Refusal::Query(QueryRefusal::LongString))),
        ReadError::Memory => Err(Memory),
    }
}

/// The name of a lexical fault.
fn lexical_name(fault: LexError) -> &'static [u8]
    ensures name { result.now ≡ lexical_name fault }
{
    match fault {
        LexError::BadByte(_) => b"BadByte",
        LexError::NumberTooBig(_) => b"NumberTooBig",
        LexError::NameTooLong(_) => b"NameTooLong",
        LexError::Memory => b"",
    }
}

/// The byte at which a lexical fault is.
fn lexical_place(fault: LexError) -> usize
    ensures place { result ≡ lexical_place fault }
{
    match fault {
        LexError::BadByte(at) => at,
        LexError::NumberTooBig(at) => at,
        LexError::NameTooLong(at) => at,
        LexError::Memory => 0,
    }
}

/// The name of a program's fault.
fn name_of_fault(fault: Fault) -> &'static [u8]
    ensures name { result.now ≡ name_of_fault fault }
{
    match fault {
        Fault::Procedures => b"Procedures",
        Fault::Statements => b"Statements",
        Fault::Nesting => b"Nesting",
        Fault::Redeclared => b"Redeclared",
        Fault::Ints => b"Ints",
        Fault::Lists => b"Lists",
        Fault::UnknownName => b"UnknownName",
        Fault::CallsLater => b"CallsLater",
        Fault::WrongArguments => b"WrongArguments",
        Fault::WrongKind => b"WrongKind",
        Fault::BreakOutside => b"BreakOutside",
        Fault::NoMain => b"NoMain",
        Fault::MainHasParameters => b"MainHasParameters",
        Fault::Depth => b"Depth",
        Fault::Chains => b"Chains",
    }
}

/// Whether a fault is a limit that is passed.
fn is_limit(fault: Fault) -> bool
    ensures limit { result ≡ is_limit fault }
{
    match fault {
        Fault::Procedures
        | Fault::Statements
        | Fault::Nesting
        | Fault::Ints
        | Fault::Lists
        | Fault::Depth
        | Fault::Chains => true,
        Fault::Redeclared
        | Fault::UnknownName
        | Fault::CallsLater
        | Fault::WrongArguments
        | Fault::WrongKind
        | Fault::BreakOutside
        | Fault::NoMain
        | Fault::MainHasParameters => false,
    }
}

/// The refusal of a text that stops at this byte or token.
fn unread(alloc: Global, at: usize, name: &[u8]) -> Result<Refusal, Memory>
    ensures refusal { IfOk result (λ r. r ≡ Refusal.Unread at name.now) }
{
    Ok(Refusal::Unread {
        at: at as u64,
        name: Text::from_slice(alloc, name)?,
    })
}

/// The refusal of a text that is not read. It fails only when memory runs out, also where that is the fault.
pub fn text_refusal(alloc: Global, error: ParseError) -> Result<Refusal, Memory>
    ensures refusal { IfOk result (λ r. r ≡ text_refusal error) }
{
    match error {
        ParseError::Lex(fault) => unread(alloc, lexical_place(fault), lexical_name(fault)),
        ParseError::Unexpected(token) => unread(alloc, token, b"Unexpected"),
        ParseError::TooDeep(token) => unread(alloc, token, b"TooDeep"),
        ParseError::Memory => Err(Memory),
    }
}

/// Where a program's fault is.
fn place_of(alloc: Global, found: LocatedFault) -> Result<ProgramFault, Memory>
    ensures place { IfOk result (λ p. p ≡ place_of found) }
{
    Ok(ProgramFault {
        at: StmtId::new(found.at),
        name: Text::from_slice(alloc, name_of_fault(found.fault))?,
        proc: found.proc,
    })
}

/// The refusal of a program with a fault: a limit that is passed, or another fault. It fails only when memory runs out.
pub fn fault_refusal(alloc: Global, found: LocatedFault) -> Result<Refusal, Memory>
    ensures refusal { IfOk result (λ r. r ≡ fault_refusal found) }
{
    let limit = is_limit(found.fault);
    let place = place_of(alloc, found)?;
    if limit {
        Ok(Refusal::Limit(place))
    } else {
        Ok(Refusal::IllFormed(place))
    }
}
