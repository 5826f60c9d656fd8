// Takes what is to be said of a program's text, with its place there.
// Gives messages, and their text for a person and for a program: the file, line and column, the
// sentence, the source line with a mark below it, and a hint.
// The theorems to rely on: `place_of`: line and column are the text's; `message_text`: the text of
// a message is its file, its place where it is about one, its sentence, the line of the place with
// a mark below it, its hint, and a line feed; `message_json`: the same as an object of JSON.
// Stands on strc_lex_names, whose places these are, and on json, memchr and itoa.
#![tactic(auto)]

pub mod message;
pub mod message_json;
pub mod message_text;
pub mod place;
