// Children of a composite stream, elaborated at the moment that their statement runs.

ghost use Rattle.std.specs.Prelude.{◌≡◌, [], map, length, IfOk, OnOk, Ok, Some};
ghost use Rattle.std.specs.Option.{is_some};
ghost use Rattle.strc_parse_tree.specs.View.{child_view, declaration_view, expr_view};
ghost use Rattle.strc_parse_tree.specs.declared.tree.Role.TheVariants as roles;
ghost use Rattle.strc_elab.specs.Elaboration as spec;
ghost use Rattle.strc_elab_statements.specs.Texts as texts;
ghost use Rattle.strc_elab_statements.specs.Saying.{store_of};
ghost use Rattle.strc_elab.specs.Answering.{progress_of, Binds, Runs, Traces, IsFrom};
ghost use Rattle.strc_elab.specs.Assembly.{elaborated_by};
ghost use Rattle.strc_elab.specs.Places.{child_trace, found_trace, with_child};
ghost use Rattle.strc_elab.specs.Sources.{named_source, declaration_source, text_source};
ghost use Rattle.strc_elab.specs.Tasks.{IsReady, setting_of, tracing_of, program_of};
ghost use Rattle.strc_elab.specs.Tasks.{text_view};
ghost use Rattle.strc_elab_stream.specs.View.{stream_view};

use crate::body::Body;
use crate::declared_text::{declared, in_own_text, text_of};
use crate::placed_error::PlacedError;
use crate::progress::Progress;
use crate::task::{Elaborated, Task, Text};
use std::alloc::{AllocError, Global};
use strc_elab_statements::captures::captures;
use strc_elab_statements::error::{ElabError, ElabErrorKind};
use strc_elab_statements::store::Store;
use strc_elab_statements::types::passes_items;
use strc_elab_statements::within::added_by;
use strc_elab_stream::added::Added;
use strc_elab_stream::stream::Stream;
use strc_lex_names::memory::NoMemory;
use strc_lex_names::name::Name;
use strc_lex_names::place::Span;
use strc_parse_tree::tree::{Child, Decl, Expr, Role, StreamType};
use strc_work_meaning::constants::Constants;
use strc_work_meaning::typed_scope::TypedScope;
use strc_work_meaning::types::ValueType;
use strc_work_rules::site::Mismatch;

impl<F: Fn(Task) -> Result<Elaborated, PlacedError>> Body<'_, F> {
    /// Elaborates a child.
    pub(crate) fn child(
        &self,
        role: Role,
        child: &Child,
        progress: &mut Progress,
    ) -> Result<(), ElabError>
        requires { IsReady self.now.task (F.pre self.now.elaborate) (F.post self.now.elaborate) }
        ensures runs { Runs (spec.child_run (setting_of self.now.task)
            progress.old.store.variables.names role (child_view child.now)
            (progress_of progress.old)) result (progress_of progress.new) }
        ensures names { OnOk result (progress.new.store.variables.names
            ≡ progress.old.store.variables.names) }
        ensures trace { Traces result (child_trace (tracing_of self.now.task)
            progress.old.store.variables.names role child.now (progress_of progress.old)
            progress.old.trace) progress.new.trace }
    {
        match child {
            Child::Named(name, Some(arguments)) => self.named(role, name, arguments, progress),
            Child::Named(name, None) => self.named(role, name, &[], progress),
            Child::Identity(_) => self.built_in(role, Text::Identity, progress),
            Child::FileReader(text) => self.built_in(role, Text::Reader(text), progress),
            Child::FileWriter(text) => self.built_in(role, Text::Writer(text), progress),
            Child::Filter(types, members) => {
                self.unnamed(role, Text::Filter(None, *types, members), progress)
            }
            Child::Composite(written, kind, block) => {
                self.unnamed(role, Text::Composite(*written, *kind, block), progress)
            }
        }
    }

    /// Elaborates a child by the name of its declaration: the name is known, each parameter has an
    /// argument, and no two parameters have one name.
    #[tactic(auto, unfolding(crate::specs::Tasks::IsReady))]
    fn named(
        &self,
        role: Role,
        name: &Name,
        arguments: &[Expr],
        progress: &mut Progress,
    ) -> Result<(), ElabError>
        requires { IsReady self.now.task (F.pre self.now.elaborate) (F.post self.now.elaborate) }
        ensures runs { Runs (spec.found_run (setting_of self.now.task) role
            (spec.named_found (setting_of self.now.task) progress.old.store.variables.names name.now
            (texts.declared_from 0 (program_of self.now.task) name.now)
            (map expr_view arguments.now) (store_of progress.old.store))
            (progress_of progress.old)) result (progress_of progress.new) }
        ensures names { OnOk result (progress.new.store.variables.names
            ≡ progress.old.store.variables.names) }
        ensures trace { Traces result (found_trace (tracing_of self.now.task) role (spec.named_found
            (setting_of self.now.task) progress.old.store.variables.names name.now
            (texts.declared_from 0 (program_of self.now.task) name.now) (map expr_view
            arguments.now) (store_of progress.old.store)) (named_source
            self.now.task.declarations.now name.now) (progress_of progress.old) progress.old.trace)
            progress.new.trace }
    {
        match declared(&self.task, name.as_bytes()) {
            Some((number, declaration)) => self.call(
                role,
                number,
                declaration,
                arguments,
                progress,
            ),
            None => {
                let unknown = ElabErrorKind::UnknownName { name: name.copy()? };
                Err(ElabError::from(unknown).or_at(name.place()))
            }
        }
    }

    /// Elaborates a child that is a declared stream, with arguments.
    fn call(
        &self,
        role: Role,
        number: usize,
        declaration: &Decl,
        arguments: &[Expr],
        progress: &mut Progress,
    ) -> Result<(), ElabError>
        requires { IsReady self.now.task (F.pre self.now.elaborate) (F.post self.now.elaborate) }
        ensures runs { Runs (spec.found_run (setting_of self.now.task) role
            (spec.named_found (setting_of self.now.task) progress.old.store.variables.names []
            (Some (number, declaration_view declaration.now)) (map expr_view arguments.now)
            (store_of progress.old.store)) (progress_of progress.old)) result
            (progress_of progress.new) }
        ensures names { OnOk result (progress.new.store.variables.names
            ≡ progress.old.store.variables.names) }
        ensures trace { Traces result (found_trace (tracing_of self.now.task) role (spec.named_found
            (setting_of self.now.task) progress.old.store.variables.names [] (Some (
              number,
              declaration_view declaration.now,
            )) (map expr_view arguments.now) (store_of
            progress.old.store)) (declaration_source declaration.now) (progress_of progress.old)
            progress.old.trace) progress.new.trace }
    {
        let parameters = parameters_of(declaration);
        if arguments.len() != parameters.len() {
            return Err(ElabError::from(ElabErrorKind::BadArguments {
                stream: self.task.declaration,
            }));
        }
        let constants = self.arguments(parameters, arguments, &mut progress.store)?;
        if let Some(twice) = doubled(self.task.alloc, parameters)? {
            let error = ElabError::mismatch(number, Mismatch::DeclaredTwice);
            return Err(error.or_at(twice.place()));
        }
        let text = text_of(declaration);
        let name = Some(&declaration.name);
        self.elaborated(role, number, &constants, text, name, progress)
    }

    /// The arguments of a child, from left to right, bound to its parameters.
    fn arguments(
        &self,
        parameters: &[Name],
        arguments: &[Expr],
        store: &mut Store,
    ) -> Result<Constants, ElabError>
        requires { length arguments.now ≡ length parameters.now }
        ensures binds { Binds (spec.arguments_given
            (setting_of self.now.task) store.old.variables.names parameters.now
            (map expr_view arguments.now) [] (store_of store.old)) result (store_of store.new) }
        ensures names { store.new.variables.names ≡ store.old.variables.names }
    {
        let mut bound = Constants::new(self.task.alloc);
        for (number, parameter) in parameters.iter().enumerate() {
            let value = self
                .place()
                .eval_checked(ValueType::Int, &arguments[number], store)?;
            bound.push(parameter, value)?;
        }
        Ok(bound)
    }

    /// Elaborates a child without a name: it is in the same declaration, and sees the numbers
    /// of its surroundings.
    fn unnamed(&self, role: Role, text: Text, progress: &mut Progress) -> Result<(), ElabError>
        requires { IsReady self.now.task (F.pre self.now.elaborate) (F.post self.now.elaborate) }
        ensures runs { Runs (spec.found_run (setting_of self.now.task) role
            (Ok (spec.unnamed_found (setting_of self.now.task) progress.old.store.variables.names
            (text_view text.entry) (store_of progress.old.store)))
            (progress_of progress.old)) result (progress_of progress.new) }
        ensures names { OnOk result (progress.new.store.variables.names
            ≡ progress.old.store.variables.names) }
        ensures trace { Traces result (found_trace (tracing_of self.now.task) role (Ok
            (spec.unnamed_found (setting_of self.now.task) progress.old.store.variables.names
            (text_view text.entry) (store_of progress.old.store))) (text_source text.entry)
            (progress_of progress.old) progress.old.trace) progress.new.trace }
    {
        let constants = captures(
            self.task.alloc,
            &progress.store.variables,
            self.task.constants,
        )?;
        self.elaborated(
            role,
            self.task.declaration,
            &constants,
            text,
            None,
            progress,
        )
    }

    /// Elaborates a built-in child: it is in the same declaration, and its text names nothing.
    fn built_in(&self, role: Role, text: Text, progress: &mut Progress) -> Result<(), ElabError>
        requires { IsReady self.now.task (F.pre self.now.elaborate) (F.post self.now.elaborate) }
        ensures runs { Runs (spec.found_run (setting_of self.now.task) role
            (Ok (spec.built_in_found (setting_of self.now.task) (text_view text.entry)
            (store_of progress.old.store)))
            (progress_of progress.old)) result (progress_of progress.new) }
        ensures names { OnOk result (progress.new.store.variables.names
            ≡ progress.old.store.variables.names) }
        ensures trace { Traces result (found_trace (tracing_of self.now.task) role (Ok
            (spec.built_in_found (setting_of self.now.task) (text_view text.entry) (store_of
            progress.old.store))) (text_source text.entry) (progress_of progress.old)
            progress.old.trace) progress.new.trace }
    {
        let constants = Constants::new(self.task.alloc);
        self.elaborated(
            role,
            self.task.declaration,
            &constants,
            text,
            None,
            progress,
        )
    }

    /// Elaborates a text one level below, and adds what is made. A refusal of what the text itself
    /// says, without a place in it, is at the name of its declaration, where it has one. The
    /// constants of a text with a name are its arguments.
    #[tactic(auto, unfolding(crate::specs::Tasks::IsReady))]
    fn elaborated(
        &self,
        role: Role,
        declaration: usize,
        constants: &Constants,
        text: Text,
        name: Option<&Name>,
        progress: &mut Progress,
    ) -> Result<(), ElabError>
        requires { IsReady self.now.task (F.pre self.now.elaborate) (F.post self.now.elaborate) }
        ensures runs { Runs (spec.found_run (setting_of self.now.task) role
            (Ok (record {
              place = record { declaration = declaration; constants = constants.now };
              text =
                  text_view text.entry;
              store = store_of progress.old.store;
            }))
            (progress_of progress.old)) result (progress_of progress.new) }
        ensures names { OnOk result (progress.new.store.variables.names
            ≡ progress.old.store.variables.names) }
        ensures trace { Traces result (found_trace (tracing_of self.now.task) role
            (Ok (record {
              place = record { declaration = declaration; constants = constants.now };
              text =
                  text_view text.entry;
              store = store_of progress.old.store;
            }))
            (text_source text.entry) (progress_of progress.old) progress.old.trace)
            progress.new.trace }
    {
        let answer = (self.elaborate)(Task {
            alloc: self.task.alloc,
            declarations: self.task.declarations,
            numbers: self.task.numbers,
            levels: self.task.levels.saturating_sub(1),
            declaration,
            constants,
            text,
            totals: progress.totals(),
        });
        let elaborated = given_below(
            in_own_text(self.task.alloc, name, constants, answer),
            &mut progress.trace.here,
        )?;
        progress.store.turns = elaborated.totals.turns;
        progress.filters = elaborated.totals.filters;
        let added = added_by(self.task.alloc, progress.trace.here, name, constants)?;
        let stream = with_added(self.task.alloc, added, elaborated.stream)?;
        match role {
            Role::Add => self.add(stream, elaborated.types, progress),
            Role::Body => self.set_body(stream, elaborated.types, progress),
            Role::Loop => self.set_loop(stream, elaborated.types, progress),
        }
    }

    /// One more child, which in a pipeline takes what the last one gives.
    fn add(
        &self,
        stream: Stream,
        types: StreamType,
        progress: &mut Progress,
    ) -> Result<(), ElabError>
        ensures runs { Runs (spec.child_added (setting_of self.now.task) roles.Add
            (progress_of progress.old) (store_of progress.old.store)
            (elaborated_by progress.old stream types)) result (progress_of progress.new) }
        ensures names { OnOk result (progress.new.store.variables.names
            ≡ progress.old.store.variables.names) }
        ensures trace { Traces result (with_child progress.old.types.items progress.old.trace)
            progress.new.trace }
    {
        if !progress.may_add(types) {
            return self.mismatch(Mismatch::Follows);
        }
        let trace = progress.trace.with_child(&progress.types);
        progress.children.push(stream)?;
        progress.types.push(types)?;
        progress.trace = trace;
        Ok(())
    }

    /// The body of a feedback loop, which takes and gives items.
    fn set_body(
        &self,
        stream: Stream,
        types: StreamType,
        progress: &mut Progress,
    ) -> Result<(), ElabError>
        ensures runs { Runs (spec.child_added (setting_of self.now.task) roles.Body
            (progress_of progress.old) (store_of progress.old.store)
            (elaborated_by progress.old stream types)) result (progress_of progress.new) }
        ensures names { OnOk result (progress.new.store.variables.names
            ≡ progress.old.store.variables.names) }
        ensures trace { progress.new.trace ≡ progress.old.trace }
    {
        if !passes_items(types) {
            return self.mismatch(Mismatch::LoopChild);
        }
        progress.body = Some(Box::new(self.task.alloc, stream)?);
        Ok(())
    }

    /// The way back of a feedback loop, which takes and gives items.
    fn set_loop(
        &self,
        stream: Stream,
        types: StreamType,
        progress: &mut Progress,
    ) -> Result<(), ElabError>
        ensures runs { Runs (spec.child_added (setting_of self.now.task) roles.Loop
            (progress_of progress.old) (store_of progress.old.store)
            (elaborated_by progress.old stream types)) result (progress_of progress.new) }
        ensures names { OnOk result (progress.new.store.variables.names
            ≡ progress.old.store.variables.names) }
        ensures trace { progress.new.trace ≡ progress.old.trace }
    {
        if !passes_items(types) {
            return self.mismatch(Mismatch::LoopChild);
        }
        progress.looped = Some(Box::new(self.task.alloc, stream)?);
        Ok(())
    }
}

/// What a text one level below gives. A refusal is where it is within that text, if that is known.
fn given_below(
    answer: Result<Elaborated, PlacedError>,
    here: &mut Option<Span>,
) -> Result<Elaborated, ElabError>
    ensures { IsFrom answer result here.old here.new }
{
    match answer {
        Ok(elaborated) => Ok(elaborated),
        Err(refused) => {
            *here = refused.place.or(*here);
            Err(refused.error)
        }
    }
}

/// A stream, with how it is added.
pub(crate) fn with_added(alloc: Global, added: Added, stream: Stream) -> Result<Stream, AllocError>
    ensures { IfOk result (λ whole. stream_view whole ≡ stream_view stream) }
{
    Ok(Stream::Placed(added, Box::new(alloc, stream)?))
}

/// The parameters of a declared stream.
fn parameters_of(declaration: &Decl) -> &[Name]
    ensures { result.now ≡ texts.parameters_of (declaration_view declaration.now) }
{
    match &declaration.parameters {
        Some(parameters) => parameters.as_slice(),
        None => &[],
    }
}

/// The first of these names that is an earlier one too. It takes expected linear time.
#[tactic(auto, using(crate::proofs::Doubles::doubled_at_first))]
fn doubled(alloc: Global, names: &[Name]) -> Result<Option<&Name>, NoMemory>
    ensures { IfOk result (λ doubled. is_some doubled ≡ texts.is_doubled names.now) }
{
    let mut earlier = TypedScope::new(alloc);
    for name in names {
        if earlier.has_since(0, name) {
            return Ok(Some(name));
        }
        earlier.declare(name, ValueType::Int)?;
    }
    Ok(None)
}
