// Takes a stream.
// Gives its outline, and the path of each node.
// The theorems to rely on: `outline_of`, `labels_of` and `paths_of` give exactly the parts, the
// labels and the paths of specs/Outlines and specs/Paths.
// Stands on strc_elab_stream, whose streams these are, and on itoa.
#![tactic(auto)]

pub mod label;
pub mod outline;
pub mod paths;
