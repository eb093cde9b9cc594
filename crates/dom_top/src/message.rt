//! The line that tells an answer.
ghost use Rattle.std.specs.Prelude.{◌≡◌, ◌≤◌, ◌+◌, ◌++◌, IfOk, codes, string_bytes};
ghost use Rattle.dom_top.specs.Answers.{code_of};
ghost use Rattle.dom_top.specs.Messages.{line, at_byte, lex_text, syntax_text, counted_text, of_variable};
ghost use Rattle.dom_top.specs.Messages.{lower_text, fault_text, message_of, Tells};

use crate::answer::Answer;
use crate::fault::ModelFault;
use crate::writing::write_text;
use dom_core::VarId;
use dom_edge::Sink;
use dom_limits::Counted;
use fzn_lex::LexError;
use fzn_lower::ModelError;
use fzn_syntax::SyntaxError;
use std::alloc::{AllocError, Global};

/// The line that tells an answer, none where all went well.
pub fn line_of(alloc: Global, answer: &Answer) -> Result<String, AllocError>
    ensures { IfOk result (λ text. string_bytes text ≡ message_of answer.now) }
{
    match answer {
        Answer::Best { .. } | Answer::Infeasible { .. } | Answer::Shown => Ok(String::new(alloc)),
        Answer::ModelRefused { fault } => refusal_of(alloc, *fault),
        Answer::WordsRefused => program_line(alloc, "words refused"),
        Answer::ReadFault => program_line(alloc, "read fault"),
        Answer::WriteFault => program_line(alloc, "write fault"),
        Answer::NoMemory => program_line(alloc, "no memory"),
    }
}

// A line of the program.
fn program_line(alloc: Global, text: &str) -> Result<String, AllocError>
    ensures { IfOk result (λ told. string_bytes told ≡ line text.now) }
{
    format!(in alloc; "dombreak: {text}\n")
}

// The line of a model that was refused.
fn refusal_of(alloc: Global, fault: ModelFault) -> Result<String, AllocError>
    ensures { IfOk result (λ told. string_bytes told ≡ line (codes "model refused: " ++ fault_text fault)) }
{
    let text = text_of_fault(alloc, fault)?;
    format!(in alloc; "dombreak: model refused: {text}\n")
}

// What is told of a fault.
fn text_of_fault(alloc: Global, fault: ModelFault) -> Result<String, AllocError>
    ensures { IfOk result (λ text. string_bytes text ≡ fault_text fault) }
{
    match fault {
        ModelFault::Lex(error) => text_of_lex(alloc, error),
        ModelFault::Syntax(error) => text_of_syntax(alloc, error),
        ModelFault::Lower(error) => text_of_lower(alloc, error),
        ModelFault::NotBuilt => String::from_str(alloc, "not built"),
    }
}

// What is told of a fault of the bytes.
fn text_of_lex(alloc: Global, error: LexError) -> Result<String, AllocError>
    ensures { IfOk result (λ text. string_bytes text ≡ lex_text error) }
{
    match error {
        LexError::TooLong => String::from_str(alloc, "text too long"),
        LexError::BadByte { at } => text_at(alloc, "bad byte", at),
        LexError::BadNumber { at } => text_at(alloc, "bad number", at),
        LexError::OpenString { at } => text_at(alloc, "open string", at),
        LexError::Memory => String::from_str(alloc, "no memory"),
    }
}

// What is told of a fault of the tokens.
fn text_of_syntax(alloc: Global, error: SyntaxError) -> Result<String, AllocError>
    ensures { IfOk result (λ text. string_bytes text ≡ syntax_text error) }
{
    match error {
        SyntaxError::Unexpected { at } => text_at(alloc, "unexpected token", at),
        SyntaxError::Memory => String::from_str(alloc, "no memory"),
    }
}

// What is told of a fault of the items.
fn text_of_lower(alloc: Global, error: ModelError) -> Result<String, AllocError>
    ensures { IfOk result (λ text. string_bytes text ≡ lower_text error) }
{
    match error {
        ModelError::TooMany { what, count } => text_of_count(alloc, what, count),
        ModelError::NameTwice { at } => text_at(alloc, "name declared twice", at),
        ModelError::UnknownName { at } => text_at(alloc, "unknown name", at),
        ModelError::UnknownConstraint { at } => text_at(alloc, "unknown constraint", at),
        ModelError::WrongArguments { at } => text_at(alloc, "wrong arguments", at),
        ModelError::FloatOrSet { at } => text_at(alloc, "float or set variable", at),
        ModelError::CyclicDefinition { var } => text_of_variable(
            alloc,
            "cyclic definition of",
            var,
        ),
        ModelError::EmptyDomain { var } => text_of_variable(alloc, "empty domain of", var),
        ModelError::Unbounded { var } => text_of_variable(alloc, "unbounded", var),
        ModelError::DomainTooLarge { var, count } => text_of_domain(alloc, var, count),
        ModelError::TooWide { constraint } => format!(in alloc; "constraint {constraint} too wide"),
        ModelError::NotBuilt => String::from_str(alloc, "not built"),
        ModelError::Memory => String::from_str(alloc, "no memory"),
    }
}

// A fault and the variable's number, from 1.
fn text_of_variable(alloc: Global, fault: &str, var: VarId) -> Result<String, AllocError>
    ensures { IfOk result (λ text. string_bytes text ≡ of_variable fault.now var) }
{
    let number = number_of(var);
    format!(in alloc; "{fault} variable {number}")
}

// How many values a variable has.
fn text_of_domain(alloc: Global, var: VarId, count: u64) -> Result<String, AllocError>
    ensures { IfOk result (λ text. string_bytes text ≡ lower_text (ModelError.DomainTooLarge var count)) }
{
    let number = number_of(var);
    format!(in alloc; "domain of variable {number} has {count} values")
}

// The variable's number, from 1.
fn number_of(var: VarId) -> u64
    ensures { result ≡ var.0 + 1 }
{
    u64::from(var.0) + 1
}

// What there are too many of, and how many.
fn text_of_count(alloc: Global, what: Counted, count: u64) -> Result<String, AllocError>
    ensures { IfOk result (λ text. string_bytes text ≡ lower_text (ModelError.TooMany what count)) }
{
    let things = name_of(what);
    format!(in alloc; "too many {things}: {count}")
}

// What there are too many of.
fn name_of(what: Counted) -> &'static str
    ensures { result.now ≡ counted_text what }
{
    match what {
        Counted::Variables => "variables",
        Counted::Constraints => "constraints",
        Counted::ArrayEntries => "array entries",
        Counted::ArgumentEntries => "argument entries",
        Counted::Free => "free variables",
    }
}

// A fault and the byte where it is.
fn text_at(alloc: Global, fault: &str, at: u64) -> Result<String, AllocError>
    ensures { IfOk result (λ text. string_bytes text ≡ at_byte fault.now at) }
{
    format!(in alloc; "{fault} at byte {at}")
}

/// Tells an answer in one line, and leaves the sink alone where there is none or no memory for it.
pub fn tell<E: Sink>(alloc: Global, err: &mut E, answer: &Answer)
    ensures told { Tells (E.bytes err.old) (E.bytes err.new) (E.faults err.old) (E.faults err.new)
        (message_of answer.now) }
    ensures kept { E.faults err.old ≤ E.faults err.new }
    ensures silent { code_of answer.now ≡ 0 → err.new ≡ err.old }
{
    let Ok(line) = line_of(alloc, answer) else {
        return;
    };
    if line.is_empty() {
        return;
    }
    let _ = write_text(err, line.as_bytes());
}
