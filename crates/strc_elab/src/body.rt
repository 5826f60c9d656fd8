// A composite stream's body, run statement by statement. The rules of a level are made of what
// elaborates the streams one level below, which they take as a value, so that each is proved by
// itself.

ghost use Rattle.std.specs.Prelude.{◌≡◌, ◌-◌, suc, OnOk, Some, length};
ghost use Rattle.std.specs.Option.{option_map};
ghost use Rattle.strc_parse_tree.specs.Tree as tree;
ghost use Rattle.strc_parse_tree.specs.View.{expr_view, stmt_view, block_view};
ghost use Rattle.strc_work_meaning.specs.Firing as firing;
ghost use Rattle.strc_work_meaning.specs.Firing.{turn_limit};
ghost use Rattle.strc_work_meaning.specs.Typing as typing;
ghost use Rattle.strc_elab_statements.specs.Statements as statements;
ghost use Rattle.strc_elab.specs.Elaboration as spec;
ghost use Rattle.strc_elab.specs.Loops.{while_looped, for_looped, names_after_block};
ghost use Rattle.strc_elab_statements.specs.Saying.{store_of};
ghost use Rattle.strc_elab_statements.specs.Answers.{Done};
ghost use Rattle.strc_elab.specs.Answering.{progress_of, Tests, Runs, Traces};
ghost use Rattle.strc_elab_statements.specs.Places.{place_of as spec_place};
ghost use Rattle.strc_elab.specs.Places.{stmt_trace, placed_trace, block_trace, while_trace};
ghost use Rattle.strc_elab.specs.Places.{for_trace, for_turns_trace};
ghost use Rattle.strc_elab.specs.Tasks.{IsReady, setting_of, tracing_of, place_of as task_place};

use crate::placed_error::PlacedError;
use crate::progress::Progress;
use crate::task::{Elaborated, Task};
use strc_elab_statements::error::ElabError;
use strc_elab_statements::steps::Place;
use strc_elab_statements::store::Store;
use strc_lex_names::place::Span;
use strc_parse_tree::tree::{Expr, Stmt};
use strc_work_meaning::evaluation::is_true;
use strc_work_meaning::fault::{Cause, TURN_LIMIT};
use strc_work_meaning::types::ValueType;
use strc_work_rules::site::Mismatch;

/// What a body's statements are in: the task whose text it is, and what elaborates the streams
/// one level below.
#[derive(Clone, Copy)]
pub(crate) struct Body<'a, F> {
    pub(crate) task: Task<'a>,
    pub(crate) elaborate: F,
}

/// One more iteration of a loop, unless the limit of the program is reached.
#[tactic(auto, using(crate::proofs::Turns::turned_under, crate::proofs::Turns::turned_over))]
fn turn(store: &mut Store) -> Result<(), ElabError>
    ensures done { Done (statements.computed (firing.turned (store_of store.old))) result
        (store_of store.new) }
    ensures names { store.new.variables.names ≡ store.old.variables.names }
{
    if store.turns >= TURN_LIMIT {
        return Err(ElabError::fault(Cause::Turns));
    }
    store.turns += 1;
    Ok(())
}

impl<F: Fn(Task) -> Result<Elaborated, PlacedError>> Body<'_, F> {
    /// Where the statements are.
    pub(crate) fn place(&self) -> Place
        ensures { spec_place result ≡ task_place self.now.task }
    {
        Place {
            alloc: self.task.alloc,
            declaration: self.task.declaration,
            constants: self.task.constants,
        }
    }

    /// The value of a condition, which holds where there is none.
    fn eval_condition(
        &self,
        condition: Option<&Expr>,
        progress: &mut Progress,
    ) -> Result<i32, ElabError>
        ensures tests { Tests (spec.condition_evaluated
            (setting_of self.now.task) progress.old.store.variables.names
            (option_map (λ e. expr_view e.now) condition.entry) (progress_of progress.old)) result
            (progress_of progress.new) }
        ensures names { progress.new.store.variables.names ≡ progress.old.store.variables.names }
        ensures trace { progress.new.trace ≡ progress.old.trace }
    {
        match condition {
            None => Ok(1),
            Some(condition) => {
                self.place()
                    .eval_checked(ValueType::Boolean, condition, &mut progress.store)
            }
        }
    }

    /// Runs a statement in a scope of its own.
    #[cycle(body)]
    #[tactic(auto, using(crate::proofs::Bodies::names_left))]
    fn inside(&self, statement: &Stmt, progress: &mut Progress) -> Result<(), ElabError>
        requires { IsReady self.now.task (F.pre self.now.elaborate) (F.post self.now.elaborate) }
        ensures runs { Runs (spec.inside (spec.stmt_run
            (setting_of self.now.task) progress.old.store.variables.names
            (length progress.old.store.variables.names) (stmt_view statement.now))
            (progress_of progress.old)) result (progress_of progress.new) }
        ensures names { OnOk result (progress.new.store.variables.names
            ≡ progress.old.store.variables.names) }
        ensures trace { Traces result (stmt_trace (tracing_of self.now.task)
            progress.old.store.variables.names (length progress.old.store.variables.names)
            statement.now (progress_of progress.old) progress.old.trace) progress.new.trace }
    {
        let start = progress.store.variables.count();
        self.statement(start, statement, progress)?;
        progress.store.variables.leave(start);
        Ok(())
    }

    /// Runs the statements of a block, each among the names that are declared before it; those of
    /// its own are from `start` on.
    #[cycle(body)]
    pub(crate) fn statements(
        &self,
        start: usize,
        block: &[Stmt],
        progress: &mut Progress,
    ) -> Result<(), ElabError>
        requires { IsReady self.now.task (F.pre self.now.elaborate) (F.post self.now.elaborate) }
        ensures runs { Runs (spec.stmts_run (setting_of self.now.task)
            progress.old.store.variables.names start (block_view block.now)
            (progress_of progress.old)) result (progress_of progress.new) }
        ensures names { OnOk result (progress.new.store.variables.names
            ≡ names_after_block progress.old.store.variables.names (block_view block.now)) }
        ensures trace { Traces result (block_trace (tracing_of self.now.task)
            progress.old.store.variables.names start block.now (progress_of progress.old)
            progress.old.trace) progress.new.trace }
    {
        for statement in block {
            self.statement(start, statement, progress)?;
        }
        Ok(())
    }

    /// Runs a statement, among the names that can be seen; those of its own block are from
    /// `start` on.
    #[cycle(body)]
    fn statement(
        &self,
        start: usize,
        statement: &Stmt,
        progress: &mut Progress,
    ) -> Result<(), ElabError>
        requires { IsReady self.now.task (F.pre self.now.elaborate) (F.post self.now.elaborate) }
        ensures runs { Runs (spec.stmt_run (setting_of self.now.task)
            progress.old.store.variables.names start (stmt_view statement.now)
            (progress_of progress.old)) result (progress_of progress.new) }
        ensures names { OnOk result (progress.new.store.variables.names
            ≡ typing.names_after progress.old.store.variables.names (stmt_view statement.now)) }
        ensures trace { Traces result (stmt_trace (tracing_of self.now.task)
            progress.old.store.variables.names start statement.now (progress_of progress.old)
            progress.old.trace) progress.new.trace }
    {
        match statement {
            Stmt::Empty => Ok(()),
            Stmt::Block(body) => self.block(body, progress),
            Stmt::Declare(declared) => self.place().declare(start, declared, &mut progress.store),
            Stmt::Evaluate(expression) => self.place().evaluate(expression, &mut progress.store),
            Stmt::Assign(name, operator, expression) => {
                self.place()
                    .assign(name, *operator, expression, &mut progress.store)
            }
            Stmt::AssignElement(name, index, operator, expression) => {
                self.place()
                    .assign_element(name, index, *operator, expression, &mut progress.store)
            }
            Stmt::If(condition, chosen) => {
                if is_true(self.eval_condition(Some(condition), progress)?) {
                    self.inside(chosen, progress)
                } else {
                    Ok(())
                }
            }
            Stmt::IfElse(condition, chosen, other) => {
                if is_true(self.eval_condition(Some(condition), progress)?) {
                    self.inside(chosen, progress)
                } else {
                    self.inside(other, progress)
                }
            }
            Stmt::While(condition, body) => self.while_turns(condition, body, progress),
            Stmt::For(first, condition, step, body) => {
                self.for_loop(first, condition.as_ref(), step, body, progress)
            }
            Stmt::Push(_) | Stmt::Print(_) | Stmt::Println(_) | Stmt::Return(_) => {
                self.mismatch(Mismatch::FilterStatement)
            }
            Stmt::Compose(composition) => self.compose(composition, progress),
            Stmt::Placed(place, inner) => self.statement_at(start, *place, inner, progress),
        }
    }

    /// Runs a statement that is written here. After a refusal, which is of the statement or of one
    /// within it, the place stays there.
    #[cycle(body)]
    fn statement_at(
        &self,
        start: usize,
        place: Span,
        statement: &Stmt,
        progress: &mut Progress,
    ) -> Result<(), ElabError>
        requires { IsReady self.now.task (F.pre self.now.elaborate) (F.post self.now.elaborate) }
        ensures runs { Runs (spec.stmt_run (setting_of self.now.task)
            progress.old.store.variables.names start (stmt_view statement.now)
            (progress_of progress.old)) result (progress_of progress.new) }
        ensures names { OnOk result (progress.new.store.variables.names
            ≡ typing.names_after progress.old.store.variables.names (stmt_view statement.now)) }
        ensures trace { Traces result (placed_trace (tracing_of self.now.task)
            progress.old.store.variables.names start place statement.now (progress_of progress.old)
            progress.old.trace) progress.new.trace }
    {
        let around = progress.trace.here;
        progress.trace.here = Some(place);
        self.statement(start, statement, progress)?;
        progress.trace.here = around;
        Ok(())
    }

    /// Runs a block in a scope of its own.
    #[cycle(body)]
    fn block(&self, block: &[Stmt], progress: &mut Progress) -> Result<(), ElabError>
        requires { IsReady self.now.task (F.pre self.now.elaborate) (F.post self.now.elaborate) }
        ensures runs { Runs (spec.stmt_run (setting_of self.now.task)
            progress.old.store.variables.names 0 (tree.Block (block_view block.now))
            (progress_of progress.old)) result (progress_of progress.new) }
        ensures names { OnOk result (progress.new.store.variables.names
            ≡ progress.old.store.variables.names) }
        ensures trace { Traces result (block_trace (tracing_of self.now.task)
            progress.old.store.variables.names (length progress.old.store.variables.names) block.now
            (progress_of progress.old) progress.old.trace) progress.new.trace }
    {
        let start = progress.store.variables.count();
        self.statements(start, block, progress)?;
        progress.store.variables.leave(start);
        Ok(())
    }

    /// Runs a loop with a step, and what comes before its first iteration, in a scope of its own.
    #[cycle(body)]
    fn for_loop(
        &self,
        first: &Stmt,
        condition: Option<&Expr>,
        step: &Stmt,
        body: &Stmt,
        progress: &mut Progress,
    ) -> Result<(), ElabError>
        requires { IsReady self.now.task (F.pre self.now.elaborate) (F.post self.now.elaborate) }
        ensures runs { Runs (spec.stmt_run (setting_of self.now.task)
            progress.old.store.variables.names 0
            (tree.For (stmt_view first.now) (option_map (λ e. expr_view e.now) condition.entry)
            (stmt_view step.now) (stmt_view body.now)) (progress_of progress.old)) result
            (progress_of progress.new) }
        ensures names { OnOk result (progress.new.store.variables.names
            ≡ progress.old.store.variables.names) }
        ensures trace { Traces result (for_trace (tracing_of self.now.task)
            progress.old.store.variables.names first.now (option_map (λ e. expr_view e.now)
            condition.entry) step.now body.now (progress_of progress.old) progress.old.trace)
            progress.new.trace }
    {
        let start = progress.store.variables.count();
        self.statement(start, first, progress)?;
        self.for_turns(condition, step, body, progress)?;
        progress.store.variables.leave(start);
        Ok(())
    }

    /// Runs a loop without a step: as long as the condition holds, one more iteration.
    #[cycle(body)]
    fn while_turns(
        &self,
        condition: &Expr,
        body: &Stmt,
        progress: &mut Progress,
    ) -> Result<(), ElabError>
        requires { IsReady self.now.task (F.pre self.now.elaborate) (F.post self.now.elaborate) }
        ensures runs { Runs (while_looped (setting_of self.now.task)
            progress.old.store.variables.names (expr_view condition.now) (stmt_view body.now)
            (suc turn_limit) (progress_of progress.old)) result (progress_of progress.new) }
        ensures names { OnOk result (progress.new.store.variables.names
            ≡ progress.old.store.variables.names) }
        ensures trace { Traces result (while_trace (tracing_of self.now.task)
            progress.old.store.variables.names (expr_view condition.now) body.now (suc turn_limit)
            (progress_of progress.old) progress.old.trace) progress.new.trace }
    {
        // The limit of iterations comes first; the range is there to end the loop in any case.
        for _round in 0..TURN_LIMIT + 1 {
            if !is_true(self.eval_condition(Some(condition), progress)?) {
                return Ok(());
            }
            turn(&mut progress.store)?;
            self.inside(body, progress)?;
        }
        Err(ElabError::fault(Cause::Turns))
    }

    /// Runs a loop with a step after each iteration.
    #[cycle(body)]
    fn for_turns(
        &self,
        condition: Option<&Expr>,
        step: &Stmt,
        body: &Stmt,
        progress: &mut Progress,
    ) -> Result<(), ElabError>
        requires { IsReady self.now.task (F.pre self.now.elaborate) (F.post self.now.elaborate) }
        ensures runs { Runs (for_looped (setting_of self.now.task)
            progress.old.store.variables.names (option_map (λ e. expr_view e.now) condition.entry)
            (stmt_view step.now) (stmt_view body.now) (suc turn_limit)
            (progress_of progress.old)) result (progress_of progress.new) }
        ensures names { OnOk result (progress.new.store.variables.names
            ≡ progress.old.store.variables.names) }
        ensures trace { Traces result (for_turns_trace (tracing_of self.now.task)
            progress.old.store.variables.names (option_map (λ e. expr_view e.now) condition.entry)
            step.now body.now (suc turn_limit) (progress_of progress.old) progress.old.trace)
            progress.new.trace }
    {
        for _round in 0..TURN_LIMIT + 1 {
            if !is_true(self.eval_condition(condition, progress)?) {
                return Ok(());
            }
            turn(&mut progress.store)?;
            self.inside(body, progress)?;
            self.inside(step, progress)?;
        }
        Err(ElabError::fault(Cause::Turns))
    }
}
