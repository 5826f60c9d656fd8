// Takes: what a stage does with what a parcel carries.
// Gives: a ring of stages and a collector as a machine over the events take and give, laws about
// its states that hold whatever stages compute, and such rings in code: `Parcel`, the trait
// `Actor`, what a ring begins with (`Start`), and its `Parts`. A caller relies on
// `events_keep_states`, and on each method of a parcel leaving exactly the value that its clause
// names. Each law is the contract of a public function with an empty body, stated in `specs/Laws`.
// Stands on strc_work_meaning, whose words parcels carry, and on strc_sched_outcome, whose stops
// they carry.
#![tactic(auto)]

mod actor;
mod event;
mod lists;
mod parcel;
mod parcel_memory;
pub mod parts;
mod ring;

ghost use Rattle.strc_stage_core.specs.Laws.{FirstCoreIsState, EventsKeepStates, EventsAreAllowed};
ghost use Rattle.strc_stage_core.specs.Laws.{EventsAreCounted, EventsEnd, ParcelsAreKept};
ghost use Rattle.strc_stage_core.specs.Laws.{ListsAreInStep};
ghost use Rattle.strc_stage_core.specs.Laws.{SomeEventIsAllowed, TakersHaveRounds, RoundsStay};
ghost use Rattle.strc_stage_core.specs.Laws.{ParcelsPass, MarksAreLast, OverIsEnded};
ghost use Rattle.strc_stage_core.specs.Laws.{CollectorGathers};
ghost use Rattle.strc_stage_core.specs.Laws.{JoinedPartsAreState, StepsHandOn, StopsStay};
ghost use Rattle.strc_stage_core.specs.Rows.{DoneRow, EmptiedRow, StoppedRow, ThreeRoundsRow};

pub use event::Event;

/// The core before any event is a state.
pub fn first_core_is_state<State, Load, Stop, Total>()
    ensures { FirstCoreIsState State Load Stop Total }
{}

/// An event takes each state to a state, of every start at once.
pub fn events_keep_states<State, Load, Stop, Total>()
    ensures { EventsKeepStates State Load Stop Total }
{}

/// An event can happen exactly where it is allowed.
pub fn events_are_allowed<State, Load, Stop, Total>()
    ensures { EventsAreAllowed State Load Stop Total }
{}

/// Each event counts one, up to two for each actor and round.
pub fn events_are_counted<State, Load, Stop, Total>()
    ensures { EventsAreCounted State Load Stop Total }
{}

/// There are only so many events, one after another, and all lead to states.
pub fn events_end<State, Load, Stop, Total>()
    ensures { EventsEnd State Load Stop Total }
{}

/// No parcel is lost and none is made; no link is ever full.
pub fn parcels_are_kept<State, Load, Stop, Total>()
    ensures { ParcelsAreKept State Load Stop Total }
{}

/// A state has a link and a hand for each stage and for the collector.
pub fn lists_are_in_step<State, Load, Stop, Total>()
    ensures { ListsAreInStep State Load Stop Total }
{}

/// Some event is allowed until the collector has given its last parcel, and none after it.
pub fn some_event_is_allowed<State, Load, Stop, Total>()
    ensures { SomeEventIsAllowed State Load Stop Total }
{}

/// An actor that may take a parcel has not finished, and has rounds left.
pub fn takers_have_rounds<State, Load, Stop, Total>()
    ensures { TakersHaveRounds State Load Stop Total }
{}

/// Stages and collector have the rounds of the start, and each took at most one parcel a round.
pub fn rounds_stay<State, Load, Stop, Total>()
    ensures { RoundsStay State Load Stop Total }
{}

/// A test that each actor hands on is passed by all parcels of every state.
pub fn parcels_pass<State, Load, Stop, Total>()
    ensures { ParcelsPass State Load Stop Total }
{}

/// A test that single steps hand on is handed on.
pub fn steps_hand_on<State, Load, Stop, Total>()
    ensures { StepsHandOn State Load Stop Total }
{}

/// A marked parcel is that of the last round, or it is stopped.
pub fn marks_are_last<State, Load, Stop, Total>()
    ensures { MarksAreLast State Load Stop Total }
{}

/// A stage that has given a stopped parcel gives stopped ones from then on.
pub fn stops_stay<State, Load, Stop, Total>()
    ensures { StopsStay State Load Stop Total }
{}

/// What a ring that is over has done.
pub fn over_is_ended<State, Load, Stop, Total>()
    ensures { OverIsEnded State Load Stop Total }
{}

/// What a collector makes of what it took: all of it, or what came before the first stop.
pub fn collector_gathers<State, Load, Stop, Total>()
    ensures { CollectorGathers State Load Stop Total }
{}

/// Parts that threads hand back are a state, and each state has such parts.
pub fn joined_parts_are_a_state<State, Load, Stop, Total>()
    ensures { JoinedPartsAreState State Load Stop Total }
{}

/// Three stages and three rounds: 24 events.
pub fn three_rounds()
    ensures { ThreeRoundsRow }
{}

/// A stop in round 2: 72 events, and what the rounds before it gave.
pub fn stopped_round()
    ensures { StoppedRow }
{}

/// No rounds, or a stop at first: no event.
pub fn done_at_first()
    ensures { DoneRow }
{}

/// The collector's parcels are empty or stopped, in every state.
pub fn emptied_parcels()
    ensures { EmptiedRow }
{}

pub use actor::Actor;
pub use parcel::Parcel;
pub use ring::{Parts, Start};
