// One step of the collector.

ghost use Rattle.std.specs.Prelude.{◌≡◌, ◌+◌, ◌≤◌, ◌<◌, ◌++◌, false, map, length, is_some};
ghost use Rattle.std.specs.Prelude.{MatchResult};
ghost use Rattle.std.specs.Vec.{vec_items, vec_capacity};
ghost use Rattle.strc_stage_core.specs.Parcels.{words_at};
ghost use Rattle.strc_stage_steps.specs.Steps.{stage_work, words_joined};
ghost use Rattle.strc_stage_steps.specs.Collectors.{IsCollector, sees};
ghost use Rattle.strc_stage_core.specs.Actors.{Collects, MayStop, or_else, returned};
ghost use Rattle.strc_stage_steps.specs.Gathering.{HasAdded, HaveRoom};

use crate::collector::CollectorParts;
use std::alloc::AllocError;
use strc_sched_outcome::stop::Stop;
use strc_stage_core::Parcel;
use strc_work_meaning::word::Word;

/// A parcel's words are gathered until the first that is stopped; it is given back empty. One whose
/// words find no memory is stopped, and its words are not gathered.
pub(crate) fn gather(parts: &mut CollectorParts, parcel: Parcel) -> Parcel
    requires is { IsCollector parts.old }
    requires open { parts.old.finished ≡ false }
    requires left { parts.old.taken < parts.old.rounds }
    ensures is { IsCollector parts.new }
    ensures collects { Collects stage_work (sees parts.old) parcel (sees parts.new) result }
{
    let stop = add_words(parts, &parcel);
    parts.stop = first_of(&parts.stop, &stop);
    parts.taken += 1;
    parts.finished = parcel.last();
    given_back(parcel, stop)
}

/// A parcel's words are gathered, where neither it nor one before it is stopped; or why they are
/// not.
fn add_words(parts: &mut CollectorParts, parcel: &Parcel) -> Option<Stop>
    requires is { IsCollector parts.old }
    requires left { parts.old.taken < parts.old.rounds }
    ensures added { HasAdded parts.old parcel.now result parts.new }
{
    if let Some(stop) = parcel.stop() {
        return Some(stop);
    }
    if parts.stop.is_some() {
        return None;
    }
    match join_words(&mut parts.words, parcel) {
        Ok(()) => {
            parts.gathered += 1;
            None
        }
        Err(_) => Some(Stop::NoMemory),
    }
}

/// The first of two stops.
fn first_of(own: &Option<Stop>, other: &Option<Stop>) -> Option<Stop>
    ensures { result ≡ or_else own.now other.now }
{
    match (own, other) {
        (Some(stop), _) | (None, Some(stop)) => Some(stop.copy()),
        (None, None) => None,
    }
}

/// The parcel as it goes back: a stopped one as it is, else an empty one.
fn given_back(parcel: Parcel, stop: Option<Stop>) -> Parcel
    requires may { MayStop stage_work (is_some parcel.stop) parcel.stop stop }
    ensures { result ≡ returned stage_work parcel stop }
{
    let mut back = parcel;
    if back.stopped() {
        return back;
    }
    back.empty();
    if let Some(stop) = stop {
        back.set_stop(stop);
    }
    back
}

/// The words of a parcel join those of the tapes, or none does.
fn join_words(words: &mut Vec<Vec<Word>>, parcel: &Parcel) -> Result<(), AllocError>
    ensures { MatchResult result
        (λ _. map vec_items words.new.items
        ≡ words_joined (map vec_items words.old.items) parcel.now.load.words)
        (λ _. map vec_items words.new.items ≡ map vec_items words.old.items) }
{
    reserve_words(words, parcel)?;
    append_words(words, parcel);
    Ok(())
}

/// Room for the words of a parcel.
fn reserve_words(words: &mut Vec<Vec<Word>>, parcel: &Parcel) -> Result<(), AllocError>
    ensures same { map vec_items words.new.items ≡ map vec_items words.old.items }
    ensures room { MatchResult result (λ _. HaveRoom parcel.now.load 0 words.new.items)
        (λ _. Unit {0}) }
{
    for tape in 0..words.len() {
        words[tape].reserve(words_of(parcel, tape).len())?;
    }
    Ok(())
}

/// They join the words of the tapes, which have room for them.
fn append_words(words: &mut Vec<Vec<Word>>, parcel: &Parcel)
    requires { HaveRoom parcel.now.load 0 words.old.items }
    ensures { map vec_items words.new.items
        ≡ words_joined (map vec_items words.old.items) parcel.now.load.words }
{
    for tape in 0..words.len() {
        append_within(&mut words[tape], words_of(parcel, tape));
    }
}

/// More words join a list that has room for them.
fn append_within(own: &mut Vec<Word>, more: &[Word])
    requires { length own.old.items + length more.now ≤ vec_capacity own.old }
    ensures { own.new.items ≡ own.old.items ++ more.now }
{
    for word in more {
        own.push_reserved(*word);
    }
}

/// The words of a parcel's tape; none where there is no such tape.
fn words_of(parcel: &Parcel, tape: usize) -> &[Word]
    ensures { result.now ≡ words_at parcel.now.load tape }
{
    if tape < parcel.tape_count() {
        parcel.words(tape)
    } else {
        &[]
    }
}
