// How a text is to be compiled.

ghost use Rattle.std.specs.Prelude.{◌≡◌};
ghost use Rattle.std.specs.Option.{option_map};
ghost use Rattle.strc_run.specs.Choices.{choice_of};

/// How a text is to be compiled.
#[derive(Drop)]
pub struct Options {
    /// The name of the main stream; without one it is the only declaration that can be it.
    pub main: Option<String>,
    /// Among how many copies a filter without state may be split; with 1 no filter is split.
    pub ways: u32,
    /// How many entries the list of a fused unit may have; with 0 no units are fused.
    pub fuse: u32,
}

impl Options {
    /// The name of the main stream, where one is given.
    pub fn main_name(&self) -> Option<&str>
        ensures { option_map (λ name. name.now) result ≡ (choice_of self.now).main }
    {
        match &self.main {
            Some(name) => Some(name.as_str()),
            None => None,
        }
    }
}
