//! Annotations.

ghost use Rattle.std.specs.Prelude.{◌≡◌, ◌++◌, OnOk};
ghost use Rattle.fzn_print.specs.Marks.{text_of, each};
ghost use Rattle.fzn_print.specs.Canonical.{arguments_marks, annotation_marks, annotations_marks};

use crate::marks::{write_name, write_space, write_symbol};
use crate::words::write_words;
use fzn_lex::What;
use fzn_syntax::{Annotation, Sequence};
use fzn_words::Word;
use std::alloc::AllocError;

fn write_arguments(out: &mut Vec<u8>, arguments: &Option<Sequence<Word>>) -> Result<(), AllocError>
    ensures { OnOk result (out.new.items ≡ out.old.items ++ text_of (arguments_marks arguments.now)) }
{
    match arguments {
        None => Ok(()),
        Some(words) => write_words(out, words.as_slice()),
    }
}

#[tactic(auto, using(crate::proofs::Texts::marked))]
fn write_annotation(out: &mut Vec<u8>, annotation: &Annotation) -> Result<(), AllocError>
    ensures { OnOk result (out.new.items ≡ out.old.items ++ text_of (annotation_marks annotation.now)) }
{
    write_space(out)?;
    write_symbol(out, What::DoubleColon)?;
    write_space(out)?;
    write_name(out, annotation.name.name.as_bytes())?;
    write_arguments(out, &annotation.arguments)
}

pub(crate) fn write_annotations(
    out: &mut Vec<u8>,
    annotations: &[Annotation],
) -> Result<(), AllocError>
    ensures { OnOk result (out.new.items ≡ out.old.items ++ text_of (annotations_marks annotations.now)) }
{
    for annotation in annotations {
        write_annotation(out, annotation)?;
    }
    Ok(())
}
