//! Which annotations mark a declaration for printing.
ghost use Rattle.std.specs.Prelude.{◌↔◌, IsTrue};
ghost use Rattle.fzn_output_marks.specs.Marks.{MarksScalar, MarksArray};

use fzn_syntax::Annotation;

/// Whether the annotation marks a scalar for printing. Arguments change nothing.
pub fn is_output_var(annotation: &Annotation) -> bool
    ensures { IsTrue result ↔ MarksScalar annotation.now }
{
    annotation.name.name.as_bytes() == b"output_var".as_slice()
}

/// Whether the annotation marks an array for printing. Whether its index sets are right is not looked at.
pub fn is_output_array(annotation: &Annotation) -> bool
    ensures { IsTrue result ↔ MarksArray annotation.now }
{
    annotation.name.name.as_bytes() == b"output_array".as_slice()
}
