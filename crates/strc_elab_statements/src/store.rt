// What a body's statements work on.

use crate::variables::Variables;

/// The variables of a composite stream's body, and how many iterations loops have made in the whole
/// program so far.
#[derive(Drop)]
pub struct Store {
    pub variables: Variables,
    pub turns: u32,
}
