//! Which ends a connective can imply.

/// Which operands an end may be implied of: none of them; one, which must be true; or each, which must all be false.
#[derive(Clone, Copy)]
pub(crate) enum Aim {
    Open,
    Sole(usize),
    Every,
}

/// What is known of the ends of a box: it is given up, nothing is implied, or the output and some operands are to be asked.
#[derive(Clone, Copy)]
pub(crate) enum Plan {
    Refuted,
    Quiet,
    Ask(Aim),
}
