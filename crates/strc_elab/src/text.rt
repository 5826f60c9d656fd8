// What the text of a stream means: its instances.

ghost use Rattle.std.specs.Prelude.{◌≡◌, [], IfOk, Ok, None};
ghost use Rattle.std.specs.Option.{option_map};
ghost use Rattle.strc_parse_tree.specs.View.{block_view};
ghost use Rattle.strc_work_meaning.specs.Filters.{filter_of, filter_parts};
ghost use Rattle.strc_work_meaning.specs.Firing as firing;
ghost use Rattle.strc_elab.specs.Elaboration as spec;
ghost use Rattle.strc_elab_statements.specs.Answers.{IsVerdict};
ghost use Rattle.strc_elab.specs.Answering.{progress_of, IsPlacedVerdict, IsPlaced, IsTraced};
ghost use Rattle.strc_elab.specs.Places.{instance_place, block_trace, composite_place, text_place};
ghost use Rattle.strc_elab.specs.Places.{no_trace};
ghost use Rattle.strc_elab.specs.Sources.{FilterSource, text_source};
ghost use Rattle.strc_elab.specs.Totals.{totals_view};
ghost use Rattle.strc_elab.specs.Tasks.{IsReady, setting_of, tracing_of, place_of, totals_of};
ghost use Rattle.strc_elab.specs.Tasks.{text_view, elaborated_view};
ghost use Rattle.strc_elab_statements.specs.Texts as texts;

use crate::body::Body;
use crate::placed_error::PlacedError;
use crate::progress::Progress;
use crate::task::{Elaborated, Task, Text, Totals};
use crate::trace::Trace;
use std::alloc::{AllocError, Global};
use strc_elab_graph::graph::NODE_LIMIT;
use strc_elab_graph::instance::Instance;
use strc_elab_statements::error::{ElabError, ElabErrorKind};
use strc_elab_statements::steps::at_declaration;
use strc_elab_statements::store::Store;
use strc_elab_statements::variables::Variables;
use strc_elab_stream::stream::Stream;
use strc_lex_names::name::{Name, StringLiteral};
use strc_parse_tree::tree::{CompositeKind, ItemType, Member, Stmt, StreamType};
use strc_work::firing::{Fire, StartError};
use strc_work::lowering::lower_parts;
use strc_work_code::code::Code;

impl Totals {
    /// One more filter, unless the limit is reached.
    fn one_more(self) -> Result<Totals, ElabError>
        ensures { IsVerdict totals_view (spec.one_more (totals_view self)
            (λ totals. Ok totals)) result }
    {
        if self.filters >= NODE_LIMIT {
            return Err(ElabError::from(ElabErrorKind::NodeLimit));
        }
        Ok(Totals {
            turns: self.turns,
            filters: self.filters + 1,
        })
    }
}

/// A filter whose start doesn't fault.
fn started(alloc: Global, code: Code) -> Result<Code, ElabError>
    ensures { IsVerdict filter_of (spec.started_as (filter_of code)
        (firing.started (filter_of code))) result }
{
    let refused = match code.start(alloc) {
        Ok(_) => return Ok(code),
        Err(StartError::ConstFault { cause }) => ElabError::at_start(cause),
        Err(StartError::NoMemory) => ElabError::from(ElabErrorKind::NoMemory),
    };
    drop(code);
    Err(refused)
}

/// A copy of a name, where there is one.
fn copied(name: Option<&Name>) -> Result<Option<Name>, AllocError>
    ensures { IfOk result (λ copy. copy ≡ option_map (λ n. n.now) name.entry) }
{
    match name {
        None => Ok(None),
        Some(name) => Ok(Some(name.copy()?)),
    }
}

impl Task<'_> {
    /// An instance of a filter: its constants are substituted, its text is checked, and then its
    /// initialisers and `init` run.
    fn instance(&self, types: StreamType, members: &[Member]) -> Result<Code, PlacedError>
        ensures verdict { IsPlacedVerdict filter_of (spec.instance_of (place_of self.now)
            (filter_parts types.input types.output members.now)) result }
        ensures place { IsPlaced (instance_place (place_of self.now) types members.now) result }
    {
        let mut here = None;
        match lower_parts(
            self.alloc,
            types.input,
            types.output,
            members,
            self.constants,
            &mut here,
        ) {
            Ok(code) => Ok(started(self.alloc, code)?),
            Err(error) => Err(PlacedError {
                error: at_declaration(self.declaration, error),
                place: here,
            }),
        }
    }

    /// A filter.
    fn filter(
        &self,
        name: Option<&Name>,
        types: StreamType,
        members: &[Member],
    ) -> Result<Elaborated, PlacedError>
        ensures verdict { IsPlacedVerdict elaborated_view (spec.text_elaborated
            (setting_of self.now) (texts.FilterText (option_map (λ n. n.now) name.entry)
            (filter_parts types.input types.output members.now)) (totals_of self.now)) result }
        ensures place { IsPlaced (text_place (tracing_of self.now)
            (FilterSource types members.now) (totals_of self.now)) result }
    {
        let totals = self.totals.one_more()?;
        let name = copied(name)?;
        let code = self.instance(types, members)?;
        let types = StreamType {
            input: code.tree().input,
            output: code.tree().output,
        };
        Ok(Elaborated {
            stream: Stream::Filter(Instance { name, code }),
            types,
            totals,
        })
    }

    /// What gives each item that it takes.
    fn identity(&self) -> Result<Elaborated, ElabError>
        ensures { IsVerdict elaborated_view
            (spec.text_elaborated (setting_of self.now) texts.IdentityText
            (totals_of self.now)) result }
    {
        let totals = self.totals.one_more()?;
        Ok(Elaborated {
            stream: Stream::Identity,
            types: StreamType {
                input: ItemType::Int,
                output: ItemType::Int,
            },
            totals,
        })
    }

    /// What gives the program's input, with the text between its brackets.
    fn reader(&self, text: &StringLiteral) -> Result<Elaborated, ElabError>
        ensures { IsVerdict elaborated_view
            (spec.text_elaborated (setting_of self.now) (texts.ReaderText text.now)
            (totals_of self.now)) result }
    {
        let totals = self.totals.one_more()?;
        Ok(Elaborated {
            stream: Stream::FileReader(text.copy()?),
            types: StreamType {
                input: ItemType::Void,
                output: ItemType::Int,
            },
            totals,
        })
    }

    /// What writes each item, with the text between its brackets.
    fn writer(&self, text: &StringLiteral) -> Result<Elaborated, ElabError>
        ensures { IsVerdict elaborated_view
            (spec.text_elaborated (setting_of self.now) (texts.WriterText text.now)
            (totals_of self.now)) result }
    {
        let totals = self.totals.one_more()?;
        Ok(Elaborated {
            stream: Stream::FileWriter(text.copy()?),
            types: StreamType {
                input: ItemType::Int,
                output: ItemType::Void,
            },
            totals,
        })
    }

    /// A body before it runs.
    fn initial_progress(&self, kind: CompositeKind) -> Progress
        ensures progress { progress_of result ≡ spec.initial_progress kind (totals_of self.now) }
        ensures names { result.store.variables.names ≡ [] }
        ensures trace { result.trace ≡ no_trace }
    {
        Progress {
            kind,
            store: Store {
                variables: Variables::new(self.alloc),
                turns: self.totals.turns,
            },
            children: Vec::new(self.alloc),
            types: Vec::new(self.alloc),
            split: None,
            join: None,
            body: None,
            looped: None,
            enqueued: Vec::new(self.alloc),
            filters: self.totals.filters,
            trace: Trace::none(),
        }
    }
}

impl<F: Fn(Task) -> Result<Elaborated, PlacedError>> Body<'_, F> {
    /// The stream of the task's text.
    pub(crate) fn text_elaborated(&self) -> Result<Elaborated, PlacedError>
        requires { IsReady self.now.task (F.pre self.now.elaborate) (F.post self.now.elaborate) }
        ensures verdict { IsPlacedVerdict elaborated_view (spec.text_elaborated
            (setting_of self.now.task) (text_view self.now.task.text)
            (totals_of self.now.task)) result }
        ensures place { IsPlaced (text_place (tracing_of self.now.task)
            (text_source self.now.task.text) (totals_of self.now.task)) result }
    {
        match self.task.text {
            Text::Filter(name, types, members) => self.task.filter(name, types, members),
            Text::Composite(written, kind, block) => self.composite(written, kind, block),
            Text::Identity => Ok(self.task.identity()?),
            Text::Reader(text) => Ok(self.task.reader(text)?),
            Text::Writer(text) => Ok(self.task.writer(text)?),
        }
    }

    /// Runs the body of the task's text from the beginning.
    fn run(&self, kind: CompositeKind, block: &[Stmt]) -> Result<Progress, PlacedError>
        requires { IsReady self.now.task (F.pre self.now.elaborate) (F.post self.now.elaborate) }
        ensures verdict { IsPlacedVerdict progress_of (spec.stmts_run (setting_of self.now.task) []
            0 (block_view block.now) (spec.initial_progress kind (totals_of self.now.task)))
            result }
        ensures place { IsTraced (block_trace (tracing_of self.now.task) [] 0 block.now
            (spec.initial_progress kind (totals_of self.now.task)) no_trace) result }
    {
        let mut progress = self.task.initial_progress(kind);
        match self.statements(0, block, &mut progress) {
            Ok(()) => Ok(progress),
            Err(error) => Err(PlacedError {
                error,
                place: progress.trace.here,
            }),
        }
    }

    /// A composite stream: its body runs, and what it says is assembled.
    fn composite(
        &self,
        written: Option<StreamType>,
        kind: CompositeKind,
        block: &[Stmt],
    ) -> Result<Elaborated, PlacedError>
        requires { IsReady self.now.task (F.pre self.now.elaborate) (F.post self.now.elaborate) }
        ensures verdict { IsPlacedVerdict elaborated_view
            (spec.composite_elaborated (setting_of self.now.task) written
            kind (block_view block.now) (totals_of self.now.task)) result }
        ensures place { IsPlaced (composite_place (tracing_of self.now.task) written kind block.now
            (totals_of self.now.task)) result }
    {
        let mut progress = self.run(kind, block)?;
        self.task.composite_assembly(kind, written, &mut progress)
    }
}
