// Declared streams that no stream adds.

use crate::finding::{Doubt, Finding};
use crate::statements::{look_at_block, look_at_members};
use indexmap::IndexSet;
use std::alloc::Global;
use strc_cli_source::tokens::is_keyword;
use strc_elab_statements::main_stream::can_be_main;
use strc_lex::token::{Keyword, Token, TokenKind};
use strc_lex_names::memory::NoMemory;
use strc_parse_tree::tree::{Program, StreamTree};

/// Looks at each declared stream of a program that is written by these tokens.
pub(crate) fn look_at_program(
    alloc: Global,
    program: &Program,
    tokens: &[Token],
    findings: &mut Vec<Finding>,
) -> Result<(), NoMemory> {
    let added = added_names(alloc, tokens)?;
    for declaration in &program.declarations {
        let is_added = added.contains(&declaration.name.as_bytes());
        if !is_added && !can_be_main(declaration) {
            findings.push(Finding {
                place: declaration.name.place(),
                doubt: Doubt::NeverAdded,
            })?;
        }
        match &declaration.stream {
            StreamTree::Filter(filter) => look_at_members(&filter.members, findings)?,
            StreamTree::Composite(composite) => look_at_block(&composite.block, None, findings)?,
        }
    }
    Ok(())
}

/// The names of the streams that are added.
fn added_names<'a>(alloc: Global, tokens: &'a [Token]) -> Result<IndexSet<&'a [u8]>, NoMemory> {
    let mut names = IndexSet::new(alloc);
    for at in 1..tokens.len() {
        if let Some(name) = added_name(&tokens[at - 1], &tokens[at]) {
            names.insert(name)?;
        }
    }
    Ok(names)
}

/// The name that the second of two tokens is, where the first one adds a child.
fn added_name<'a>(before: &Token, token: &'a Token) -> Option<&'a [u8]> {
    let adds = is_keyword(before, Keyword::Add)
        || is_keyword(before, Keyword::Body)
        || is_keyword(before, Keyword::Loop);
    match &token.kind {
        TokenKind::Name(name) if adds => Some(name.as_bytes()),
        _ => None,
    }
}
