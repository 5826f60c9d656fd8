// How far a composite stream's body has run, and which stream statements it may have yet.

ghost use Rattle.std.specs.Prelude.{◌≡◌};
ghost use Rattle.strc_elab.specs.Elaboration as spec;
ghost use Rattle.strc_elab.specs.Answering.{progress_of};

use crate::task::Totals;
use crate::trace::Trace;
use strc_elab_statements::store::Store;
use strc_elab_statements::weights::Split;
use strc_elab_statements::written::same_item;
use strc_elab_stream::stream::Stream;
use strc_parse_tree::tree::{CompositeKind, Role, StreamType};
use strc_work_rules::site::{Mismatch, Part};

/// What its stream statements have said so far: the children of `add` with their types, the weights
/// of `split` and `join`, body and loop, and the enqueued items; its variables and the iterations
/// so far, and how many filters there are; and the statements that said this.
#[derive(Drop)]
pub(crate) struct Progress {
    pub(crate) kind: CompositeKind,
    pub(crate) store: Store,
    pub(crate) children: Vec<Stream>,
    pub(crate) types: Vec<StreamType>,
    pub(crate) split: Option<Split>,
    pub(crate) join: Option<Vec<i32>>,
    pub(crate) body: Option<Box<Stream>>,
    pub(crate) looped: Option<Box<Stream>>,
    pub(crate) enqueued: Vec<i32>,
    pub(crate) filters: u32,
    pub(crate) trace: Trace,
}

fn is_pipeline(kind: CompositeKind) -> bool
    ensures { result ≡ spec.is_pipeline kind }
{
    match kind {
        CompositeKind::Pipeline => true,
        CompositeKind::Splitjoin | CompositeKind::Feedbackloop => false,
    }
}

fn is_loop(kind: CompositeKind) -> bool
    ensures { result ≡ spec.is_loop kind }
{
    match kind {
        CompositeKind::Feedbackloop => true,
        CompositeKind::Pipeline | CompositeKind::Splitjoin => false,
    }
}

/// Whether streams of this kind have statements of this part.
fn has_part(kind: CompositeKind, part: Part) -> bool {
    match part {
        Part::Add => !is_loop(kind),
        Part::Body | Part::Loop | Part::Enqueue => is_loop(kind),
        Part::Split | Part::Join => !is_pipeline(kind),
    }
}

/// Whether one more child of a pipeline takes what the last one gives.
fn follows(types: &[StreamType], next: StreamType) -> bool
    ensures { result ≡ spec.follows types.now next }
{
    match types {
        [] => true,
        [.., last] => same_item(last.output, next.input),
    }
}

impl Progress {
    /// Whether there may be one more child for this.
    pub(crate) fn may_have(&self, role: Role) -> bool
        ensures { result ≡ spec.may_have role (progress_of self.now) }
    {
        match role {
            Role::Add => !is_loop(self.kind),
            Role::Body => is_loop(self.kind) && self.body.is_none(),
            Role::Loop => is_loop(self.kind) && self.looped.is_none(),
        }
    }

    /// Whether there may be a `split`.
    pub(crate) fn may_split(&self) -> bool
        ensures { result ≡ spec.may_split (progress_of self.now) }
    {
        !is_pipeline(self.kind) && self.split.is_none()
    }

    /// Whether there may be a `join`.
    pub(crate) fn may_join(&self) -> bool
        ensures { result ≡ spec.may_join (progress_of self.now) }
    {
        !is_pipeline(self.kind) && self.join.is_none()
    }

    /// Whether there may be an `enqueue`.
    pub(crate) fn may_enqueue(&self) -> bool
        ensures { result ≡ spec.is_loop self.now.kind }
    {
        is_loop(self.kind)
    }

    /// What a statement of this part breaks, where there may be none, or none more.
    pub(crate) fn no_room_for(&self, part: Part) -> Mismatch {
        if has_part(self.kind, part) {
            Mismatch::Second(self.kind, part)
        } else {
            Mismatch::Foreign(self.kind, part)
        }
    }

    /// Whether a child of `add` may have this type.
    pub(crate) fn may_add(&self, next: StreamType) -> bool
        ensures { result ≡ spec.may_add self.now.kind self.now.types.items next }
    {
        match self.kind {
            CompositeKind::Pipeline => follows(&self.types, next),
            CompositeKind::Splitjoin | CompositeKind::Feedbackloop => true,
        }
    }

    /// The totals so far.
    pub(crate) fn totals(&self) -> Totals
        ensures turns { result.turns ≡ self.now.store.turns }
        ensures filters { result.filters ≡ self.now.filters }
    {
        Totals {
            turns: self.store.turns,
            filters: self.filters,
        }
    }
}
