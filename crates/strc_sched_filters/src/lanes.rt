// 64 firings of a filter in a row, done at once: a lane each.

pub mod firing;
pub mod frame;
mod pushes;
