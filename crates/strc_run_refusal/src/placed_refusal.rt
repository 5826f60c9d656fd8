// A refusal with what is known of the part of the text that breaks its rule, for the message about
// it.

ghost use Rattle.std.specs.Prelude.{◌≡◌, Some};
ghost use Rattle.strc_run_refusal.specs.Placing as spec;
ghost use Rattle.strc_run_refusal.specs.Placing.{placed_at, unplaced};
ghost use Rattle.strc_run_refusal.specs.Reports.{refusal_of};
ghost use Rattle.strc_run_refusal.specs.declared.refusal.Refusal.TheVariants.{NoMemory};

use crate::refusal::Refusal;
use strc_elab_graph::graph::Graph;
use strc_elab_statements::error::ElabError;
use strc_elab_statements::within::Within;
use strc_elab_stream::stream::Stream;
use strc_lex_names::memory;
use strc_lex_names::place::Span;
use strc_work_meaning::fault::Trapped;
use strc_work_rules::site::Site;

/// The first rule that a text breaks, and what is known of the program that breaks it.
pub struct PlacedRefusal {
    pub refusal: Refusal,
    /// Which rule on types, kinds and parts it is, and at which name, as far as that is known.
    pub site: Site,
    /// Of a rule of elaboration the stream whose text breaks it, with its arguments.
    pub within: Within,
    /// Of a rule of elaboration the innermost statement that ran, or the rate or the declaration of
    /// fields around what breaks it.
    pub statement: Option<Span>,
    /// The main stream, where the program could be elaborated.
    pub stream: Option<Stream>,
    /// Its flat graph, where it has one.
    pub graph: Option<Graph>,
}

// A drop that is written out is a call for the crates above, which would each prove a derived one
// anew.
impl Drop for PlacedRefusal {
    fn drop(self) {
        let PlacedRefusal {
            refusal: _,
            site: _,
            within: _,
            statement: _,
            stream: _,
            graph: _,
        } = self;
    }
}

impl PlacedRefusal {
    /// The refusal of an elaboration, at this statement.
    pub fn at(error: ElabError, statement: Option<Span>) -> PlacedRefusal
        ensures { result ≡ record (placed_at (refusal_of error) result.site)
            { statement = statement } }
    {
        let site = error.site();
        let (kind, within) = error.into_parts();
        PlacedRefusal {
            refusal: Refusal::from(kind),
            site,
            within,
            statement,
            stream: None,
            graph: None,
        }
    }

    /// The refusal of the flat graph of this main stream.
    pub fn of_stream(error: ElabError, stream: Stream) -> PlacedRefusal
        ensures { result ≡ record (placed_at (refusal_of error) result.site)
            { stream = Some stream } }
    {
        let site = error.site();
        let (kind, within) = error.into_parts();
        PlacedRefusal {
            refusal: Refusal::from(kind),
            site,
            within,
            statement: None,
            stream: Some(stream),
            graph: None,
        }
    }

    /// The refusal of a program with this main stream and this flat graph.
    pub fn of_graph(refusal: Refusal, stream: Stream, graph: Graph) -> PlacedRefusal
        ensures { result ≡ record (unplaced refusal) { stream = Some stream; graph = Some graph } }
    {
        PlacedRefusal {
            refusal,
            site: nowhere(),
            within: Within::unknown(),
            statement: None,
            stream: Some(stream),
            graph: Some(graph),
        }
    }

    /// Which rule is broken, without where.
    pub fn into_refusal(self) -> Refusal
        ensures { result ≡ self.refusal }
    {
        let PlacedRefusal {
            refusal,
            site: _,
            within: _,
            statement: _,
            stream: _,
            graph: _,
        } = self;
        refusal
    }
}

/// A site of which nothing is known.
fn nowhere() -> Site
    ensures { result ≡ spec.nowhere }
{
    Site {
        place: None,
        mismatch: None,
        trapped: Trapped {
            mark: 0,
            index: 0,
            count: 0,
        },
    }
}

impl From<Refusal> for PlacedRefusal {
    ghost from_gives = { λ refusal r. r ≡ unplaced refusal };

    /// The refusal, of which no place is known.
    fn from(refusal: Refusal) -> PlacedRefusal {
        PlacedRefusal {
            refusal,
            site: nowhere(),
            within: Within::unknown(),
            statement: None,
            stream: None,
            graph: None,
        }
    }
}

impl From<memory::NoMemory> for PlacedRefusal {
    ghost from_gives = { λ _ r. r ≡ unplaced NoMemory };

    fn from(_error: memory::NoMemory) -> PlacedRefusal {
        PlacedRefusal::from(Refusal::NoMemory)
    }
}
