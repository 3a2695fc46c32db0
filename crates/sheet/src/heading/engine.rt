ghost use Rattle.std.specs.Prelude.{◌≡◌, Some};
ghost use Rattle.std.specs.Result.{result_ok};
ghost use Rattle.sheet.specs.Readings.{ReadsEngine};
ghost use Rattle.sheet.specs.Texts.{engine_name};

use super::EngineChoice;
use std::fmt;

// No engine has the letter.
#[derive(Clone, Copy, Debug, PartialEq, Eq)]
pub struct UnknownEngine;

impl TryFrom<char> for EngineChoice {
    type Error = UnknownEngine;

    ghost try_from_gives = { λ letter r. ReadsEngine letter (result_ok r) };

    fn try_from(letter: char) -> Result<Self, UnknownEngine> {
        match letter {
            'm' => Ok(EngineChoice::Pessimistic),
            't' => Ok(EngineChoice::Serial),
            _ => Err(UnknownEngine),
        }
    }
}

impl EngineChoice {
    // The word that names the engine.
    fn name(self) -> &'static str
        ensures { result.now ≡ engine_name self }
    {
        match self {
            EngineChoice::Pessimistic => "pessimistic",
            EngineChoice::Serial => "serial",
        }
    }
}

impl fmt::Display for EngineChoice {
    ghost output = { λ engine. Some (engine_name engine) };

    fn fmt<W: fmt::Write>(&self, f: &mut fmt::Formatter<W>) -> fmt::Result {
        f.write_str(self.name())
    }
}
