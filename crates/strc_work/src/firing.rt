// The start of a filter's code, and its firings.

ghost use Rattle.std.specs.Prelude.{◌≡◌, [], IfOk};
ghost use Rattle.strc_work_meaning.specs.Filters as filters;
ghost use Rattle.strc_work_meaning.specs.Firing.{started, fired};
ghost use Rattle.strc_work_instructions.specs.Running.{MoreWords, WantsOnlyWords};
ghost use Rattle.strc_work.specs.Answers.{Starts, Fires, WantsGivenWords};
ghost use Rattle.strc_work.specs.StartErrors.{start_error_of};
ghost use Rattle.strc_work.specs.States.{IsStateOf, IsFrameOf};

use crate::calls::Calls;
use crate::code::Code;
use crate::frame::Frame;
use crate::machine;
use crate::state::State;
use std::alloc::Global;
use strc_lex_names::memory::NoMemory;
use strc_work_code::limits::FiringLimits;
use strc_work_instructions::io::FiringIo;
use strc_work_instructions::port::FiringPort;
use strc_work_instructions::window::Window;
use strc_work_meaning::body::Body;
use strc_work_meaning::fault::{Cause, Halt, LocatedCause, Trapped};
use strc_work_meaning::word::Word;
use thiserror::Error;

/// Why a filter can't start.
#[derive(Debug, Drop, Error)]
pub enum StartError {
    /// An initialiser faults, or `init` does.
    #[error("an initialiser or init faults: {why}", why = cause_of(.cause))]
    ConstFault { cause: LocatedCause },
    /// Memory was refused.
    #[error("out of memory for the fields of a filter")]
    NoMemory,
}

/// What starts and fires: a filter's code. Contracts see the filter.
pub trait Fire {
    ghost use Rattle.std.specs.Prelude.{[], ◌≡◌, IfOk};
    ghost use Rattle.strc_work_meaning.specs.Filters.{Filter, body_prints};
    ghost use Rattle.strc_work_meaning.specs.Firing.{started, fired};
    ghost use Rattle.strc_work_instructions.specs.Running.{MoreWords, WantsOnlyWords};
    ghost use Rattle.strc_work.specs.Answers.{Starts, Fires, WantsGivenWords};
    ghost use Rattle.strc_work.specs.States.{IsStateOf, IsFrameOf};

    ghost filter: { Self → Filter };

    /// The fields at 0, then their initialisers in order, and then `init`.
    fn start(&self, alloc: Global) -> Result<State, StartError>
        ensures values { Starts (started (filter self.now)) result }
        ensures state { IfOk result (λ state. IsStateOf (filter self.now) state) };

    /// Room for the pushes of one firing, of either body, and for 64 running calls.
    fn frame(&self, alloc: Global) -> Result<Frame, NoMemory>
        ensures frame { IfOk result (λ frame. IsFrameOf (filter self.now) frame) }
        ensures pushes { IfOk result (λ frame. frame.items ≡ []) };

    /// One firing. The state and the frame are of this code. It takes no memory but for the words:
    /// it is out of memory only at a word that the firing gives.
    fn fire<W: Window>(
        &self,
        body: Body,
        state: &mut State,
        frame: &mut Frame,
        window: &W,
        words: &mut Vec<Word>,
    ) -> Result<(), Halt>
        requires state { IsStateOf (filter self.now) state.old }
        requires frame { IsFrameOf (filter self.now) frame.old }
        ensures fired { Fires (fired (filter self.now) body state.old.fields (W.items window.now))
            result state.new.fields frame.new.items words.old.items words.new.items }
        ensures memory { WantsOnlyWords (body_prints body (filter self.now)) result }
        ensures silent { WantsGivenWords (fired (filter self.now) body state.old.fields
            (W.items window.now)) result words.old.items words.new.items }
        ensures words { MoreWords words.old.items words.new.items }
        ensures state { IsStateOf (filter self.now) state.new }
        ensures frame { IsFrameOf (filter self.now) frame.new };
}

impl Fire for Code {
    ghost use Rattle.strc_work_meaning.specs.Filters.{filter_of};

    ghost filter = { filter_of };

    fn start(&self, alloc: Global) -> Result<State, StartError> {
        start_code(self, alloc)
    }

    fn frame(&self, alloc: Global) -> Result<Frame, NoMemory> {
        frame_of(self, alloc)
    }

    #[inline]
    fn fire<W: Window>(
        &self,
        body: Body,
        state: &mut State,
        frame: &mut Frame,
        window: &W,
        words: &mut Vec<Word>,
    ) -> Result<(), Halt> {
        fire_code(self, body, state, frame, window, words)
    }
}

/// The fields of a code's filter at 0, then their initialisers in order, and then `init`.
fn start_code(code: &Code, alloc: Global) -> Result<State, StartError>
    ensures values { Starts (started (filters.filter_of code.now)) result }
    ensures state { IfOk result (λ state. IsStateOf (filters.filter_of code.now) state) }
{
    let fields = code.field_count();
    let Ok(mut slots) = Vec::from_elem(alloc, 0, code.slot_count()) else {
        return Err(StartError::NoMemory);
    };
    let Ok(mut saved) = Vec::from_elem(alloc, 0, code.saved_count()) else {
        return Err(StartError::NoMemory);
    };
    let mut io = FiringIo::new(alloc, Vec::new(alloc));
    let limits = FiringLimits {
        pops: 0,
        peek: 0,
        pushes: 0,
    };
    let nothing: &[i32] = &[];
    let port = FiringPort::new(limits, &nothing);
    let calls = Calls::new(code);
    match machine::run(
        &code.start_routine().flat,
        &mut slots,
        &mut io,
        &port,
        &calls,
        &mut saved,
    ) {
        Ok(()) => Ok(State { slots, fields }),
        Err(halt) => Err(start_error(halt, io.trapped())),
    }
}

/// Room for the pushes of one firing, of either body of a code, and for 64 running calls.
fn frame_of(code: &Code, alloc: Global) -> Result<Frame, NoMemory>
    ensures frame { IfOk result (λ frame. IsFrameOf (filters.filter_of code.now) frame) }
    ensures pushes { IfOk result (λ frame. frame.items ≡ []) }
{
    let first = code.routine(Body::Prework).limits.pushes;
    let room = first.max(code.routine(Body::Work).limits.pushes);
    let buffer = Vec::from_elem(alloc, 0, room as usize)?;
    let saved = Vec::from_elem(alloc, 0, code.saved_count())?;
    Ok(Frame {
        io: FiringIo::new(alloc, buffer),
        saved,
    })
}

/// One firing of a code.
fn fire_code<W: Window>(
    code: &Code,
    body: Body,
    state: &mut State,
    frame: &mut Frame,
    window: &W,
    words: &mut Vec<Word>,
) -> Result<(), Halt>
    requires state { IsStateOf (filters.filter_of code.now) state.old }
    requires frame { IsFrameOf (filters.filter_of code.now) frame.old }
    ensures fired { Fires (fired (filters.filter_of code.now) body state.old.fields
        (W.items window.now))
        result state.new.fields frame.new.items words.old.items words.new.items }
    ensures memory { WantsOnlyWords (filters.body_prints body
        (filters.filter_of code.now)) result }
    ensures silent { WantsGivenWords (fired (filters.filter_of code.now) body state.old.fields
        (W.items window.now)) result words.old.items words.new.items }
    ensures words { MoreWords words.old.items words.new.items }
    ensures state { IsStateOf (filters.filter_of code.now) state.new }
    ensures frame { IsFrameOf (filters.filter_of code.now) frame.new }
{
    let routine = code.routine(body);
    let port = FiringPort::new(routine.limits, window);
    frame.io.begin(words);
    let calls = Calls::new(code);
    let result = machine::run(
        &routine.flat,
        &mut state.slots,
        &mut frame.io,
        &port,
        &calls,
        &mut frame.saved,
    );
    frame.io.end(words);
    result
}

/// Why a start faults.
fn cause_of(cause: &LocatedCause) -> Cause
    ensures { result ≡ cause.now }
{
    cause.cause()
}

/// What a halt means at the start, where this is known of what trapped.
fn start_error(halt: Halt, trapped: Trapped) -> StartError
    ensures { result ≡ start_error_of halt }
{
    match halt {
        Halt::Fault(cause) => StartError::ConstFault {
            cause: LocatedCause::new(cause, trapped),
        },
        Halt::NoMemory => StartError::NoMemory,
    }
}
