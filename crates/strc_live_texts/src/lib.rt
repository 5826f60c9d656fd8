// Takes a program's plan of one tape, or none, and the bytes of its input.
// Gives the text that a live run writes, by definition, and a law about it, and no code.
// The theorem to rely on: `live_writes_the_same`: where all words of the input write numbers, what
// a run over the whole input writes of the rounds that it serves is what is written live.
// Stands on strc_stage, whose outcomes are the answers of the stream equations, on strc_cli_output,
// whose lines it writes, and on strc_cli_input, whose numbers the input gives.
#![tactic(auto)]

ghost use Rattle.strc_live_texts.specs.Live.{DoneRow, LiveWritesTheSame};

/// Where all words of the input write numbers, and there is one tape or none, what a run over the
/// whole input writes of the rounds that it serves is what is written live.
pub fn live_writes_the_same()
    ensures { LiveWritesTheSame }
{}

/// Two words, of which the second leaves its line open, alone and before a wrong word of the input.
pub fn done_row()
    ensures { DoneRow }
{}
