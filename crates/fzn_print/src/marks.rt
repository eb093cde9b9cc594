//! What every text is put together of.

ghost use Rattle.std.specs.Prelude.{◌≡◌, ◌++◌, [], ◌∷◌, OnOk};
ghost use Rattle.fzn_lex.specs.declared.words.What.TheVariants.{Name};
ghost use Rattle.fzn_print.specs.Spelling.{spelling_of};
ghost use Rattle.fzn_print.specs.Marks.{text_of};
ghost use Rattle.fzn_print.specs.Canonical.{ended};

use crate::tokens::write_token;
use fzn_lex::What;
use std::alloc::AllocError;

// A token that is no name, no number and no text.
pub(crate) fn write_symbol(out: &mut Vec<u8>, what: What) -> Result<(), AllocError>
    ensures { OnOk result (out.new.items ≡ out.old.items ++ spelling_of what []) }
{
    write_token(out, what, b"")
}

// A name, or a reserved word.
pub(crate) fn write_name(out: &mut Vec<u8>, text: &[u8]) -> Result<(), AllocError>
    ensures { OnOk result (out.new.items ≡ out.old.items ++ text.now) }
{
    write_token(out, What::Name, text)
}

pub(crate) fn write_space(out: &mut Vec<u8>) -> Result<(), AllocError>
    ensures { OnOk result (out.new.items ≡ out.old.items ++ 32 ∷ []) }
{
    out.push(b' ')?;
    Ok(())
}

// The end of an item and of its line.
pub(crate) fn write_end(out: &mut Vec<u8>) -> Result<(), AllocError>
    ensures { OnOk result (out.new.items ≡ out.old.items ++ text_of ended) }
{
    out.extend_from_slice(b";\n")
}
