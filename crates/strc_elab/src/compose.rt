// Stream statements of a composite stream's body: which of them it may have, and what they say.

ghost use Rattle.std.specs.Prelude.{◌≡◌, [], map, Some, Err, OnOk};
ghost use Rattle.strc_parse_tree.specs.View.{expr_view, composition_view, child_view};
ghost use Rattle.strc_parse_tree.specs.View.{splitter_view};
ghost use Rattle.strc_parse_tree.specs.Tree as tree;
ghost use Rattle.strc_elab_statements.specs.Saying.{store_of};
ghost use Rattle.strc_elab_statements.specs.declared.error.ElabErrorKind.TheVariants as refused;
ghost use Rattle.strc_elab.specs.Answering.{progress_of, Runs, Lists, Splits, Traces};
ghost use Rattle.strc_elab.specs.Elaboration as spec;
ghost use Rattle.strc_elab.specs.Places.{composed_trace, added_trace, with_split, with_join};
ghost use Rattle.strc_elab.specs.Tasks.{IsReady, setting_of, tracing_of};

use crate::body::Body;
use crate::placed_error::PlacedError;
use crate::progress::Progress;
use crate::task::{Elaborated, Task};
use strc_elab_statements::error::ElabError;
use strc_elab_statements::store::Store;
use strc_elab_statements::weights::Split;
use strc_parse_tree::tree::{Child, Composition, Expr, Role, Splitter};
use strc_work_meaning::types::ValueType;
use strc_work_rules::site::{Mismatch, Part};

/// The part that a child is for.
fn part_of(role: Role) -> Part {
    match role {
        Role::Add => Part::Add,
        Role::Body => Part::Body,
        Role::Loop => Part::Loop,
    }
}

impl<F: Fn(Task) -> Result<Elaborated, PlacedError>> Body<'_, F> {
    /// Does a stream statement.
    pub(crate) fn compose(
        &self,
        composition: &Composition,
        progress: &mut Progress,
    ) -> Result<(), ElabError>
        requires { IsReady self.now.task (F.pre self.now.elaborate) (F.post self.now.elaborate) }
        ensures runs { Runs (spec.composed (setting_of self.now.task)
            progress.old.store.variables.names (composition_view composition.now)
            (progress_of progress.old)) result (progress_of progress.new) }
        ensures names { OnOk result (progress.new.store.variables.names
            ≡ progress.old.store.variables.names) }
        ensures trace { Traces result (composed_trace (tracing_of self.now.task)
            progress.old.store.variables.names composition.now (progress_of progress.old)
            progress.old.trace) progress.new.trace }
    {
        match composition {
            Composition::Child(role, child) => self.child_for(*role, child, progress),
            Composition::Split(splitter) => self.split(splitter, progress),
            Composition::Join(Some(weights)) => self.join(weights, progress),
            Composition::Join(None) => self.join(&[], progress),
            Composition::Enqueue(value) => self.enqueue(value, progress),
        }
    }

    /// A statement that breaks this rule on types, kinds and parts.
    pub(crate) fn mismatch(&self, mismatch: Mismatch) -> Result<(), ElabError>
        ensures { result ≡ Err (refused.TypeMismatch self.now.task.declaration) }
    {
        Err(ElabError::mismatch(self.task.declaration, mismatch))
    }

    /// Elaborates a child for this.
    fn child_for(&self, role: Role, child: &Child, progress: &mut Progress) -> Result<(), ElabError>
        requires { IsReady self.now.task (F.pre self.now.elaborate) (F.post self.now.elaborate) }
        ensures runs { Runs (spec.composed (setting_of self.now.task)
            progress.old.store.variables.names (tree.ChildOf role (child_view child.now))
            (progress_of progress.old)) result (progress_of progress.new) }
        ensures names { OnOk result (progress.new.store.variables.names
            ≡ progress.old.store.variables.names) }
        ensures trace { Traces result (added_trace (tracing_of self.now.task)
            progress.old.store.variables.names role child.now (progress_of progress.old)
            progress.old.trace) progress.new.trace }
    {
        if progress.may_have(role) {
            self.child(role, child, progress)
        } else {
            self.mismatch(progress.no_room_for(part_of(role)))
        }
    }

    /// Evaluates how items are split.
    fn split(&self, splitter: &Splitter, progress: &mut Progress) -> Result<(), ElabError>
        ensures runs { Runs (spec.composed (setting_of self.now.task)
            progress.old.store.variables.names (tree.Split (splitter_view splitter.now))
            (progress_of progress.old)) result (progress_of progress.new) }
        ensures names { OnOk result (progress.new.store.variables.names
            ≡ progress.old.store.variables.names) }
        ensures trace { Traces result (with_split progress.old.trace) progress.new.trace }
    {
        if !progress.may_split() {
            return self.mismatch(progress.no_room_for(Part::Split));
        }
        let split = self.split_of(splitter, &mut progress.store)?;
        progress.split = Some(split);
        progress.trace.split = progress.trace.here;
        Ok(())
    }

    /// Evaluates how items are joined.
    fn join(&self, weights: &[Expr], progress: &mut Progress) -> Result<(), ElabError>
        ensures runs { Runs (spec.composed (setting_of self.now.task)
            progress.old.store.variables.names (tree.Join (Some (map expr_view weights.now)))
            (progress_of progress.old)) result (progress_of progress.new) }
        ensures names { OnOk result (progress.new.store.variables.names
            ≡ progress.old.store.variables.names) }
        ensures trace { Traces result (with_join progress.old.trace) progress.new.trace }
    {
        if !progress.may_join() {
            return self.mismatch(progress.no_room_for(Part::Join));
        }
        let join = self.values(weights, &mut progress.store)?;
        progress.join = Some(join);
        progress.trace.join = progress.trace.here;
        Ok(())
    }

    /// Enqueues an item on the channel from the loop to the joiner.
    fn enqueue(&self, value: &Expr, progress: &mut Progress) -> Result<(), ElabError>
        ensures runs { Runs (spec.composed (setting_of self.now.task)
            progress.old.store.variables.names (tree.Enqueue (expr_view value.now))
            (progress_of progress.old)) result (progress_of progress.new) }
        ensures names { OnOk result (progress.new.store.variables.names
            ≡ progress.old.store.variables.names) }
        ensures trace { progress.new.trace ≡ progress.old.trace }
    {
        if !progress.may_enqueue() {
            return self.mismatch(progress.no_room_for(Part::Enqueue));
        }
        let item = self
            .place()
            .eval_checked(ValueType::Int, value, &mut progress.store)?;
        progress.enqueued.push(item)?;
        Ok(())
    }

    /// How items are split, with its weights' values.
    fn split_of(&self, splitter: &Splitter, store: &mut Store) -> Result<Split, ElabError>
        ensures splits { Splits (spec.splitter_evaluated
            (setting_of self.now.task) store.old.variables.names (splitter_view splitter.now)
            (store_of store.old)) result (store_of store.new) }
        ensures names { store.new.variables.names ≡ store.old.variables.names }
    {
        match splitter {
            Splitter::Duplicate(_) => Ok(Split::ToEach),
            Splitter::Roundrobin(Some(weights)) => Ok(Split::InTurn(self.values(weights, store)?)),
            Splitter::Roundrobin(None) => Ok(Split::InTurn(self.values(&[], store)?)),
        }
    }

    /// The values of weights, from left to right.
    fn values(&self, weights: &[Expr], store: &mut Store) -> Result<Vec<i32>, ElabError>
        ensures lists { Lists (spec.values_evaluated
            (setting_of self.now.task) store.old.variables.names (map expr_view weights.now) []
            (store_of store.old)) result (store_of store.new) }
        ensures names { store.new.variables.names ≡ store.old.variables.names }
    {
        let mut values = Vec::new(self.task.alloc);
        for weight in weights {
            let value = self.place().eval_checked(ValueType::Int, weight, store)?;
            values.push(value)?;
        }
        Ok(values)
    }
}
