// Where stages want memory.

ghost use Rattle.strc_stage_steps.specs.Memory.{QuietStagesWantNoMemory};

/// A stage of which no node gives words never stops out of memory.
pub fn quiet_stages_want_no_memory()
    ensures { QuietStagesWantNoMemory }
{}
