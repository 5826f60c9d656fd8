// What a body may pop, look at and push.

/// How many items a body may pop, look at and push.
#[derive(Clone, Copy)]
pub struct FiringLimits {
    pub pops: u32,
    pub peek: u32,
    pub pushes: u32,
}
