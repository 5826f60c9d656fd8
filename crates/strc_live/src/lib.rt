// Takes the words of the command line, a program's text, and its input while it comes.
// Gives what the program's one tape prints, each round's words as soon as the input serves the
// round.
// The theorem to rely on: `execute_live` (`reported`): what is written is the answer of as many
// rounds as the input's numbers serve, and then the line of what ended them; where the output
// fails a beginning of that, or of the words of some rounds; where a read fails the words of the
// rounds that the bytes so far serve.
// Stands on strc_live_feeds, whose rounds it writes, on strc_live_answers, by whose laws they are
// the answer, on strc_cli_input, which has the devices, and on strc_cli, whose words, lines and
// statuses it shares.
#![tactic(auto)]

mod ends;
pub mod execute_live;
pub mod explanation;
mod rounds;
