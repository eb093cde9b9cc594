//! What is printed of an answer.
ghost use Rattle.std.specs.Prelude.{◌≡◌};

use dom_core::{Arg, Name, VarId};
use dom_definers::Form;
use dom_index_sets::IndexSets;
use std::marker::Model;

/// A list of variables and constants.
#[derive(Debug, Drop)]
pub struct Args {
    items: Vec<Arg>,
}

impl Model for Args {
    ghost use Rattle.std.specs.Prelude.{List};
    ghost use Rattle.dom_core.specs.declared.arg.Arg.{Arg};

    ghost Value = { List Arg };

    ghost view = { λ a. a.items.items };
}

impl Args {
    /// The arguments of a vector, which is moved.
    pub fn from_vec(items: Vec<Arg>) -> Args
        ensures { result ≡ items.items }
    {
        Args { items }
    }

    pub fn as_slice(&self) -> &[Arg]
        ensures { result.now ≡ self.now }
    {
        self.items.as_slice()
    }
}

/// A part of the answer that is printed.
#[derive(Drop)]
pub enum Output {
    /// The value of one variable, under its name.
    Scalar(VarId),
    /// The values of an array's entries, under its name and with its index sets. The entries are of the form; 0 and 1 stand for false
    /// and true.
    Array {
        name: Name,
        form: Form,
        sets: IndexSets,
        entries: Args,
    },
}
