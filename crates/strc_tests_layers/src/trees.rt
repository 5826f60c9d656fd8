// Trees of the statements of composite streams.

use crate::texts::program;
use std::alloc::{AllocError, Global};
use std::test::Fail;
use strc_parse_tree::tree::{
    Brackets, Child, CompositeKind, Composition, Expr, ItemType, Role, Splitter, Stmt, StreamTree,
    StreamType,
};

fn push_bytes(out: &mut String, bytes: &[u8]) -> Result<(), AllocError> {
    out.push_str(std::str::from_utf8(bytes).unwrap_or("?"))
}

// A number or a name; another expression is a dot.
fn show_value(out: &mut String, value: &Expr) -> Result<(), AllocError> {
    match value {
        Expr::Number(number) => write!(out, "{number}"),
        Expr::Read(name) => push_bytes(out, name.as_bytes()),
        _ => out.push_str("."),
    }
}

// The values in brackets, each with a comma; or nothing, where no brackets are written.
fn show_list(out: &mut String, list: &Option<Vec<Expr>>) -> Result<(), AllocError> {
    let Some(values) = list else {
        return Ok(());
    };
    out.push_str("(")?;
    for value in values {
        show_value(out, value)?;
        out.push_str(",")?;
    }
    out.push_str(")")
}

fn brackets(written: Brackets) -> &'static str {
    match written {
        Brackets::Written => "()",
        Brackets::Missing => "",
    }
}

fn item(kind: ItemType) -> &'static str {
    match kind {
        ItemType::Int => "int",
        ItemType::Void => "void",
    }
}

fn show_types(out: &mut String, types: StreamType) -> Result<(), AllocError> {
    write!(out, "{}->{} ", item(types.input), item(types.output))
}

// A stream in it is named by its kind and the number of its parts.
fn show_child(out: &mut String, child: &Child) -> Result<(), AllocError> {
    match child {
        Child::Named(name, arguments) => {
            push_bytes(out, name.as_bytes())?;
            show_list(out, arguments)
        }
        Child::Identity(written) => write!(out, "Identity{}", brackets(*written)),
        Child::FileReader(file) => {
            out.push_str("FileReader ")?;
            push_bytes(out, file.as_bytes())
        }
        Child::FileWriter(file) => {
            out.push_str("FileWriter ")?;
            push_bytes(out, file.as_bytes())
        }
        Child::Filter(types, members) => {
            show_types(out, *types)?;
            write!(out, "filter {}", members.len())
        }
        Child::Composite(types, kind, block) => {
            if let Some(types) = types {
                show_types(out, *types)?;
            }
            let kind = match kind {
                CompositeKind::Pipeline => "pipeline",
                CompositeKind::Splitjoin => "splitjoin",
                CompositeKind::Feedbackloop => "feedbackloop",
            };
            write!(out, "{kind} {}", block.len())
        }
    }
}

fn show(out: &mut String, statement: &Stmt) -> Result<(), AllocError> {
    match statement {
        Stmt::Placed(_, inner) => show(out, inner),
        Stmt::Compose(composition) => show_composition(out, composition),
        _ => out.push_str("another statement"),
    }
}

fn show_composition(out: &mut String, composition: &Composition) -> Result<(), AllocError> {
    match composition {
        Composition::Child(role, child) => {
            out.push_str(match role {
                Role::Add => "add ",
                Role::Body => "body ",
                Role::Loop => "loop ",
            })?;
            show_child(out, child)
        }
        Composition::Split(Splitter::Duplicate(written)) => {
            write!(out, "split duplicate{}", brackets(*written))
        }
        Composition::Split(Splitter::Roundrobin(weights)) => {
            out.push_str("split roundrobin")?;
            show_list(out, weights)
        }
        Composition::Join(weights) => {
            out.push_str("join roundrobin")?;
            show_list(out, weights)
        }
        Composition::Enqueue(value) => {
            out.push_str("enqueue ")?;
            show_value(out, value)
        }
    }
}

// The only statement of a pipeline.
fn shown(alloc: Global, statement: &str) -> Result<String, Fail> {
    let text = format!(in alloc; "int->int pipeline P {{ {statement} }}")?;
    let program = program(alloc, &text)?;
    let first = program.declarations.first().ok_or("no stream")?;
    let StreamTree::Composite(tree) = &first.stream else {
        return Err(Fail::from("a filter"));
    };
    let mut out = String::new(alloc);
    for statement in &tree.block {
        show(&mut out, statement)?;
        out.push_str(";")?;
    }
    Ok(out)
}

// A row a line: statements, and what is shown of them.
const STATEMENTS: &str = "\
add A; => add A;
add A(); => add A();
body A(1); => body A(1,);
loop A(1 + 2, x, 3); => loop A(.,x,3,);
add Identity<int>; => add Identity;
add Identity<int>(); => add Identity();
add FileReader<int>(\"in\"); => add FileReader in;
add FileWriter<int>(\"out\"); => add FileWriter out;
split duplicate; => split duplicate;
split duplicate(); => split duplicate();
split roundrobin; => split roundrobin;
split roundrobin(); => split roundrobin();
split roundrobin(1, n); => split roundrobin(1,n,);
join roundrobin; => join roundrobin;
join roundrobin(); => join roundrobin();
join roundrobin(2 * n); => join roundrobin(.,);
enqueue 1; => enqueue 1;
add pipeline { } => add pipeline 0;
body splitjoin { add A; } => body splitjoin 1;
loop feedbackloop { ; } => loop feedbackloop 1;
add int->void pipeline { add A; add B; } => add int->void pipeline 2;
add void->int splitjoin { } => add void->int splitjoin 0;
add int->int filter { int x; work { } } => add int->int filter 2;
add pipeline { } ; => add pipeline 0;another statement;
if (b) add A; else add B; => another statement;
";

#[test]
fn statements_of_composite_streams_have_their_parts(rt: HostRuntime) -> Result<(), Fail> {
    for row in STATEMENTS.lines() {
        let (text, want) = row.split_once(" => ").ok_or("a row without two parts")?;
        let found = shown(rt.alloc(), text)?;
        assert_eq!(rt; found.as_str(), want, "{text}");
    }
    Ok(())
}
