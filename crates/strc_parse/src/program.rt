// Whole texts.

ghost use Rattle.std.specs.Prelude.{◌≡◌, List, IfOk, IfErr};
ghost use Rattle.strc_parse_tree.specs.Tree.{Declaration};
ghost use Rattle.strc_parse_tree.specs.View.{program_view};
ghost use Rattle.strc_parse_grammar.specs.Grammar.{kinds, height_limit, Parses, Refuses, IsFound};
ghost use Rattle.strc_parse_grammar.specs.Streams as spec;
ghost use Rattle.strc_parse_grammar.specs.Reading.{Gives};
ghost use Rattle.strc_parse.specs.Placed.{IsProgramPlaced};

use crate::declaration::declarations;
use std::alloc::Global;
use strc_lex::token::Token;
use strc_parse_grammar::{Fault, ParseError, ReadError};
use strc_parse_tree::tree::Program;

fn program(alloc: Global, tokens: &[Token]) -> Result<Program, ReadError>
    ensures gives { Gives program_view result (spec.program height_limit (kinds tokens.now)) }
    ensures placed { IfOk result (IsProgramPlaced tokens.now) }
{
    let declarations = declarations(alloc, tokens)?;
    Ok(Program { declarations })
}

/// The tree of a program's tokens.
///
/// `Parse` is for tokens that no program has, whatever its height; `Nesting` for those of which a
/// statement or an expression is higher than `HEIGHT_LIMIT`; `NoMemory` where memory runs out.
pub fn parse(alloc: Global, tokens: &[Token]) -> Result<Program, ParseError>
    // What is read is a well-shaped program, and these are its tokens.
    ensures ok { IfOk result (λ p. Parses (kinds tokens.now) (program_view p)) }
    // Each statement that isn't empty, each rate and each declaration of fields is at the place of
    // the tokens that spell it.
    ensures placed { IfOk result (IsProgramPlaced tokens.now) }
    // What a refusal says is so.
    ensures refused { IfErr result (λ e. Refuses (kinds tokens.now) e) }
    // A program whose tokens these are is read, unless memory runs out.
    ensures found { (program : List Declaration) → Parses (kinds tokens.now) program
        → IsFound program result }
{
    match program(alloc, tokens) {
        Ok(program) => Ok(program),
        Err(ReadError::Memory) => Err(ParseError::NoMemory),
        Err(ReadError::Fault(Fault::Nesting)) => Err(ParseError::Nesting),
        Err(ReadError::Fault(Fault::Unexpected(left))) => {
            let token = tokens.len() - left;
            Err(ParseError::Parse { token })
        }
    }
}
