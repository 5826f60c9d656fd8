// Takes nothing: what the crates of the compiler share.
// Gives the error of a refused allocation, names and strings, places in a text, and the names that
// are in scope, each with its number, and with a value where there is one.
// The theorems to rely on: a name is its bytes, and so is its copy; a scope's look-ups give what
// the list of its names gives, in expected constant time.
// Stands on no other crate of ours.
#![tactic(auto)]

pub mod memory;
pub mod name;
pub mod place;
pub mod scope;
pub mod scope_map;
