//! Names of files.

ghost use Rattle.std.specs.Prelude.{◌≡◌};
ghost use Rattle.run_model.specs.Endings.{name_bytes};

use live_model::Text;

/// The name of a file.
#[derive(PartialEq, Eq, Debug, Drop)]
pub enum Name<'a> {
    /// As a word of the command line has it.
    Given(&'a str),
    /// Made in the run, as from a script that names files.
    Made(Text),
}

impl Name<'_> {
    /// The characters.
    pub fn as_str(&self) -> &str
        ensures { result.now ≡ name_bytes self.now }
    {
        match self {
            Name::Given(text) => text,
            Name::Made(text) => text.as_str(),
        }
    }
}
