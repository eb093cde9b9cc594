//! Annotations by their names.
ghost use Rattle.std.specs.Prelude.{◌≡◌};
ghost use Rattle.std.specs.Option.{option_copied};
ghost use Rattle.fzn_model.specs.Outputs.{is_named, is_marked, mark_of};

use fzn_syntax::Annotation;

pub(crate) fn is_named(name: &[u8], annotation: &Annotation) -> bool
    ensures { result ≡ is_named name.now annotation.now }
{
    annotation.name.name.as_bytes() == name
}

/// Whether one of a scalar's annotations marks it for printing.
pub(crate) fn is_marked(annotations: &[Annotation]) -> bool
    ensures { result ≡ is_marked annotations.now }
{
    annotations
        .iter()
        .any(|annotation| is_named(b"output_var", annotation))
}

/// The first of an array's annotations that marks it for printing.
pub(crate) fn mark_of(annotations: &[Annotation]) -> Option<&Annotation>
    ensures { option_copied result ≡ mark_of annotations.now }
{
    for annotation in annotations {
        if is_named(b"output_array", annotation) {
            return Some(annotation);
        }
    }
    None
}
