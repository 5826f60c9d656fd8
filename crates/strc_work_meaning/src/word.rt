// What a program prints.

/// A printed number, and whether it ends its line.
#[derive(Clone, Copy)]
pub struct Word {
    pub value: i32,
    pub ends_line: bool,
}
