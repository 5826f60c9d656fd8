// What is known of a program that a message is about.

ghost use Rattle.std.specs.Prelude.{◌≡◌, find};
ghost use Rattle.std.specs.Option.{option_map};
ghost use Rattle.strc_parse_tree.specs.View.{declaration_view};
ghost use Rattle.strc_elab_statements.specs.MainStreams.{can_be_main};

use std::alloc::Global;
use strc_cli_source::nodes::NamedGraph;
use strc_cli_source::preorder::Preorder;
use strc_cli_source::source::Source;
use strc_cli_source::spelling::spelled_or_first;
use strc_elab_graph::graph::Graph;
use strc_elab_statements::main_stream::can_be_main;
use strc_lex_names::place::Span;
use strc_parse_tree::tree::{Decl, Program};

/// A program's text, and of its tree, the nodes of its main stream and its flat graph those that it
/// has.
#[derive(Clone, Copy)]
pub struct Known<'a> {
    pub alloc: Global,
    pub source: Source<'a>,
    pub program: Option<&'a Program>,
    pub nodes: Option<&'a Preorder>,
    pub graph: Option<&'a Graph>,
    /// The path of each node; none where they aren't known.
    pub paths: &'a [Vec<u8>],
}

impl<'a> Known<'a> {
    ghost use Rattle.std.specs.Prelude.{◌≡◌, IfSome, IfNone};
    ghost use Rattle.std.specs.Option.{option_map};
    ghost use Rattle.strc_cli_places.specs.Parts as parts;
    ghost use Rattle.strc_cli_source.specs.Spelling as spelling;
    ghost use Rattle.strc_cli_places.specs.Streams.{declared_as, main_of};

    /// The flat graph with the paths of its nodes, where it is known.
    pub fn named_graph(self) -> Option<NamedGraph<'a>> {
        match self.graph {
            Some(graph) => Some(NamedGraph {
                graph,
                paths: self.paths,
            }),
            None => None,
        }
    }

    /// The declarations of the program; none where it has no tree.
    pub fn declarations(self) -> &'a [Decl]
        ensures { result.now ≡ parts.declarations_of
            (option_map (λ p. p.now) self.entry.program) }
    {
        match self.program {
            Some(program) => &program.declarations,
            None => &[],
        }
    }

    /// Where the name of a declaration is written, by the declaration's number.
    pub fn declaration_numbered(self, number: usize) -> Option<Span>
        ensures { parts.MarksDeclaration self.entry.source.text.now self.entry.source.tokens.now
            (parts.declaration_at (option_map (λ p. p.now) self.entry.program) number) result }
    {
        self.place_of_name(self.declarations().get(number)?)
    }

    /// Where the name of a declaration is written.
    pub fn place_of_name(self, declaration: &Decl) -> Option<Span>
        ensures { spelling.Marks self.entry.source.text.now self.entry.source.tokens.now
            declaration.now.name result }
    {
        let name = &declaration.name;
        spelled_or_first(self.source, name.place(), name.as_bytes())
    }

    /// The declaration of a name.
    pub fn declaration_named(self, name: &[u8]) -> Option<&'a Decl>
        ensures first { option_map (λ d. d.now) result ≡ declared_as name.now
            (option_map (λ p. p.now) self.entry.program) }
        ensures found { IfSome result (λ found. found.now.name ≡ name.now) }
        ensures undeclared { IfNone result (parts.IsUndeclared
            (option_map (λ p. p.now) self.entry.program) name.now) }
    {
        self.declarations()
            .iter()
            .find(|declaration| declaration.name.as_bytes() == name)
    }

    /// The main stream: the one that is asked for, or else the first that can be it.
    pub fn main(self) -> Option<&'a Decl>
        ensures { option_map (λ d. d.now) result
            ≡ main_of (option_map (λ m. m.now) self.entry.source.main)
            (option_map (λ p. p.now) self.entry.program) }
    {
        match self.source.main {
            Some(name) => self.declaration_named(name.as_bytes()),
            None => first_main(self.declarations()),
        }
    }
}

/// The first declaration that can be the main stream.
fn first_main(declarations: &[Decl]) -> Option<&Decl>
    ensures { option_map (λ d. d.now) result
        ≡ find (λ declaration. can_be_main (declaration_view declaration)) declarations.now }
{
    declarations.iter().find(|it| can_be_main(it))
}
