ghost use Rattle.std.specs.Prelude.{◌≡◌};

use crate::fault::ModelFault;
use dom_core::Values;

/// What a run came to.
#[derive(Debug, PartialEq, Drop)]
pub enum Answer {
    Best {
        values: Values,
        nodes: u64,
        nogoods: u64,
    },
    Infeasible {
        nodes: u64,
        nogoods: u64,
    },
    /// The canonical text of the model was written.
    Shown,
    ModelRefused {
        fault: ModelFault,
    },
    WordsRefused,
    ReadFault,
    WriteFault,
    NoMemory,
}

/// How a run ended.
#[derive(Debug, PartialEq, Drop)]
pub struct Status {
    pub answer: Answer,
}

impl Status {
    ghost use Rattle.std.specs.Prelude.{◌≡◌};
    ghost use Rattle.dom_top.specs.Answers.{code_of};

    /// The number with which the program ends.
    pub fn code(&self) -> u8
        ensures { result ≡ code_of self.now.answer }
    {
        match &self.answer {
            Answer::Best { .. } | Answer::Infeasible { .. } | Answer::Shown => 0,
            Answer::ModelRefused { .. } => 2,
            Answer::WordsRefused => 3,
            Answer::ReadFault => 4,
            Answer::WriteFault => 5,
            Answer::NoMemory => 6,
        }
    }
}
