//! The answers of the front end about a text.

ghost use Rattle.std.specs.Prelude.{◌≤◌, ◌^◌, ℕ, List, IfOk, map};
ghost use Rattle.fk_lex.specs.Reading.{Spelled, Tokens};
ghost use Rattle.fk_lex.specs.View.{spelled, IsFault};
ghost use Rattle.fk_syntax.specs.Program.{ProgramTree};
ghost use Rattle.fk_syntax.specs.ProgramView.{program_of};
ghost use Rattle.fk_syntax.specs.WellFormed.{IsWellFormed};
ghost use Rattle.fk_parse.specs.Refusals.{RefusesTokens};
ghost use Rattle.fk_layout.specs.Layout.{tables_by};
ghost use Rattle.fk_layout.specs.Refusal.{IsRefusal};
ghost use Rattle.fk_check_cases.specs.Answers.{AsksLayout, HasFacts, IsAnswer, IsAnswerOf};
ghost use Rattle.fk_check_cases.specs.declared.row.Question as q;

use crate::row::Question;
use fk_check::checked;
use fk_layout::{Layout, LayoutFault, lay_out};
use fk_lex::lex::lex;
use fk_lex::token::{LexFault, Token};
use fk_num::MOST_TEXT_BYTES;
use fk_parse::{SyntaxFault, parse};
use fk_syntax::{CheckFault, Facts, Place, Program};
use std::alloc::{AllocError, Global};

/// The tokens and facts of a text that keeps all rules.
#[derive(Drop)]
pub struct Checked<'a> {
    pub tokens: Vec<Token<'a>>,
    pub facts: Facts,
}

/// The answer about a text.
#[derive(Drop)]
pub enum Answer<'a> {
    /// The text isn't a program.
    NoProgram,
    /// The first rule that it breaks: the place, and the number of the rule.
    Broken(Place, u8),
    /// It keeps all rules.
    Kept,
    /// It keeps all rules, and these are its facts.
    Checked(Checked<'a>),
    /// It keeps all rules, and these are its operations and frames.
    Sites(Layout<'a>),
    /// It keeps all rules, and these are the other tables of its layout.
    Tables(Layout<'a>),
    /// It keeps all rules, but is too large for a layout.
    TooLarge(LayoutFault),
}

// The answer about a text without tokens.
fn without_tokens<'a>(fault: LexFault) -> Result<Answer<'a>, AllocError>
    ensures { (asked : q.Question) (source : List ℕ) → IsFault source fault
        → IfOk result (IsAnswer asked source) }
{
    match fault {
        LexFault::BadByte(_)
        | LexFault::OpenComment(_)
        | LexFault::OpenString(_)
        | LexFault::WideNumber(_) => Ok(Answer::NoProgram),
        LexFault::Memory(error) => Err(error),
    }
}

// The answer about a text whose tokens aren't a program.
fn without_program<'a>(fault: SyntaxFault) -> Result<Answer<'a>, AllocError>
    ensures { (asked : q.Question) (source : List ℕ) (tokens : List Spelled) → Tokens source tokens
        → RefusesTokens tokens fault → IfOk result (IsAnswer asked source) }
{
    match fault {
        SyntaxFault::Unexpected(_) | SyntaxFault::EndOfText | SyntaxFault::Nesting(_) => {
            Ok(Answer::NoProgram)
        }
        SyntaxFault::Memory(error) => Err(error),
    }
}

// The answer about a program without a layout, if the question needs one.
fn without_layout<'a>(
    program: &Program,
    facts: &Facts,
    fault: LayoutFault,
) -> Result<Answer<'a>, AllocError>
    requires facts { HasFacts (program_of program.now) facts.now }
    requires fault { IsRefusal (tables_by (program_of program.now) facts.now)
        (program_of program.now).items fault }
    ensures { (asked : q.Question) (tokens : List Spelled) → AsksLayout asked
        → IfOk result (IsAnswerOf asked tokens (program_of program.now)) }
{
    match fault {
        LayoutFault::TooManySites(_)
        | LayoutFault::FrameTooLarge(_, _)
        | LayoutFault::GlobalsTooLarge(_) => Ok(Answer::TooLarge(fault)),
        LayoutFault::Memory => Err(AllocError),
    }
}

// The answer about a program that keeps all rules.
fn kept<'a>(
    alloc: Global,
    asked: Question,
    tokens: Vec<Token<'a>>,
    program: &Program<'a>,
    facts: Facts,
) -> Result<Answer<'a>, AllocError>
    requires { HasFacts (program_of program.now) facts }
    ensures { IfOk result
        (IsAnswerOf asked (map spelled tokens.entry.items) (program_of program.now)) }
{
    match asked {
        Question::Rules => Ok(Answer::Kept),
        Question::Facts => Ok(Answer::Checked(Checked { tokens, facts })),
        Question::Sites => match lay_out(alloc, program, &facts) {
            Ok(layout) => Ok(Answer::Sites(layout)),
            Err(fault) => without_layout(program, &facts, fault),
        },
        Question::Layout => match lay_out(alloc, program, &facts) {
            Ok(layout) => Ok(Answer::Tables(layout)),
            Err(fault) => without_layout(program, &facts, fault),
        },
    }
}

// The answer about a program with these tokens.
fn answer_of<'a>(
    alloc: Global,
    asked: Question,
    tokens: Vec<Token<'a>>,
    program: &Program<'a>,
) -> Result<Answer<'a>, AllocError>
    requires well_formed { IsWellFormed (program_of program.now) }
    requires small { program.now.tokens ≤ 2 ^ 20 }
    ensures { IfOk result
        (IsAnswerOf asked (map spelled tokens.entry.items) (program_of program.now)) }
{
    match checked(alloc, program) {
        Ok(facts) => kept(alloc, asked, tokens, program, facts),
        Err(CheckFault::Rule(place, rule)) => Ok(Answer::Broken(place, rule)),
        Err(CheckFault::Memory) => Err(AllocError),
    }
}

/// The answer of the front end about a text. It fails only if there isn't enough memory.
pub fn answer_for<'a>(
    alloc: Global,
    asked: Question,
    source: &'a [u8],
) -> Result<Answer<'a>, AllocError>
    ensures { IfOk result (IsAnswer asked source.now) }
{
    if source.len() > MOST_TEXT_BYTES {
        return Ok(Answer::NoProgram);
    }
    let tokens = match lex(alloc, source) {
        Ok(tokens) => tokens,
        Err(fault) => return without_tokens(fault),
    };
    match parse(alloc, tokens.as_slice()) {
        Ok(program) => answer_of(alloc, asked, tokens, &program),
        Err(fault) => without_program(fault),
    }
}
