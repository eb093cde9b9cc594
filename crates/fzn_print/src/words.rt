//! Words as they were read.

ghost use Rattle.std.specs.Prelude.{◌≡◌, ◌++◌, ◌-◌, length, take, drop, OnOk};
ghost use Rattle.fzn_print.specs.Marks.{text_of, each};
ghost use Rattle.fzn_print.specs.Canonical.{word_marks, flat_marks, spaced_word, spaced_marks, body_marks};

use crate::marks::write_space;
use crate::tokens::write_token;
use fzn_words::Word;
use std::alloc::AllocError;

// The first words.
fn front(words: &[Word], len: usize) -> &[Word]
    ensures { result.now ≡ take len words.now }
{
    if len < words.len() {
        &words[..len]
    } else {
        words
    }
}

// The words behind the first.
fn back(words: &[Word], len: usize) -> &[Word]
    ensures { result.now ≡ drop len words.now }
{
    if len < words.len() {
        &words[len..]
    } else {
        &[]
    }
}

// How many words stand between the first and the last.
fn inner_len(words: &[Word]) -> usize
    ensures { result ≡ length words.now - 2 }
{
    if words.len() < 2 { 0 } else { words.len() - 2 }
}

#[tactic(auto, using(crate::proofs::Texts::marked))]
fn write_word(out: &mut Vec<u8>, word: &Word) -> Result<(), AllocError>
    ensures { OnOk result (out.new.items ≡ out.old.items ++ text_of (word_marks word.now)) }
{
    write_token(out, word.what, word.text.as_bytes())
}

// The words without spaces.
pub(crate) fn write_words(out: &mut Vec<u8>, words: &[Word]) -> Result<(), AllocError>
    ensures { OnOk result (out.new.items ≡ out.old.items ++ text_of (flat_marks words.now)) }
{
    for word in words {
        write_word(out, word)?;
    }
    Ok(())
}

#[tactic(auto, using(crate::proofs::Texts::marked))]
fn write_spaced_word(out: &mut Vec<u8>, word: &Word) -> Result<(), AllocError>
    ensures { OnOk result (out.new.items ≡ out.old.items ++ text_of (spaced_word word.now)) }
{
    write_space(out)?;
    write_word(out, word)
}

fn write_spaced_words(out: &mut Vec<u8>, words: &[Word]) -> Result<(), AllocError>
    ensures { OnOk result (out.new.items ≡ out.old.items ++ text_of (each spaced_word words.now)) }
{
    for word in words {
        write_spaced_word(out, word)?;
    }
    Ok(())
}

// The words with one space between them.
#[tactic(auto, using(crate::proofs::Texts::marked))]
fn write_joined(out: &mut Vec<u8>, words: &[Word]) -> Result<(), AllocError>
    ensures { OnOk result (out.new.items ≡ out.old.items ++ text_of (spaced_marks words.now)) }
{
    match words {
        [] => Ok(()),
        [first, rest @ ..] => {
            write_word(out, first)?;
            write_spaced_words(out, rest)
        }
    }
}

// The words between parentheses, which are the first and the last.
#[tactic(auto, using(crate::proofs::Texts::marked))]
pub(crate) fn write_body(out: &mut Vec<u8>, words: &[Word]) -> Result<(), AllocError>
    ensures { OnOk result (out.new.items ≡ out.old.items ++ text_of (body_marks words.now)) }
{
    let rest = back(words, 1);
    let inner = inner_len(words);
    write_words(out, front(words, 1))?;
    write_joined(out, front(rest, inner))?;
    write_words(out, back(rest, inner))
}
