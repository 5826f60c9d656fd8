// What the tests make of texts.

use std::alloc::Global;
use std::test::Fail;
use strc_lex::lexer::lex;
use strc_lex_names::name::Name;
use strc_parse::parse;
use strc_parse_tree::tree::{Program, StreamTree};
use strc_work::lowering::lower;
use strc_work_code::code::Code;
use strc_work_meaning::constants::Constants;

/// The tree of a text.
pub(crate) fn program(alloc: Global, text: &str) -> Result<Program, Fail> {
    let tokens = lex(alloc, text.as_bytes())?;
    Ok(parse(alloc, &tokens)?)
}

/// The code of the only filter of a text, with the constant `limit`, 8.
pub(crate) fn code(alloc: Global, text: &str) -> Result<Code, Fail> {
    let program = program(alloc, text)?;
    let [only] = program.declarations.as_slice() else {
        return Err(Fail::from("several streams"));
    };
    let StreamTree::Filter(filter) = &only.stream else {
        return Err(Fail::from("a pipeline"));
    };
    let mut constants = Constants::new(alloc);
    let limit = Name::new(Vec::from_slice(alloc, b"limit")?);
    if constants.push(&limit, 8).is_err() {
        return Err(Fail::from("NoMemory"));
    }
    match lower(alloc, filter, &constants) {
        Ok(code) => Ok(code),
        Err(_) => Err(Fail::from("lower")),
    }
}
