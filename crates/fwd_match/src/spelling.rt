//! Words with their braces expanded.

ghost use Rattle.std.specs.Prelude.{◌≡◌, ◌++◌, map, OnOk, IfOk};
ghost use Rattle.fwd_match.specs.Patterns.{alternatives, each_with, spellings, expanded};

use crate::fields::{Mark, first_field};
use fwd_base::Bytes;
use std::alloc::{AllocError, Global};

/// Adds each alternative of a text, put behind a front.
fn put_each(
    alloc: Global,
    out: &mut Vec<Bytes>,
    front: &[u8],
    text: &[u8],
    inside: bool,
) -> Result<(), AllocError>
    ensures { OnOk result
        (out.new.items
        ≡ out.old.items ++ map (λ more. front.now ++ more) (alternatives inside text.now)) }
{
    let mut rest = Some(text);
    while let Some(bytes) = rest {
        let (alternative, more) = first_field(bytes, Mark::Comma(inside));
        out.push(Bytes::joined(alloc, front, alternative)?)?;
        rest = more;
    }
    Ok(())
}

/// Each text with each alternative behind it.
fn extended(
    alloc: Global,
    texts: &[Bytes],
    text: &[u8],
    inside: bool,
) -> Result<Vec<Bytes>, AllocError>
    ensures { IfOk result (λ out.
        out.items ≡ each_with texts.now (alternatives inside text.now)) }
{
    let mut out = Vec::new(alloc);
    for front in texts {
        put_each(alloc, &mut out, front.as_slice(), text, inside)?;
    }
    Ok(out)
}

/// The words that one word stands for.
fn spell(alloc: Global, word: &[u8]) -> Result<Vec<Bytes>, AllocError>
    ensures { IfOk result (λ texts. texts.items ≡ spellings word.now) }
{
    let mut texts = Vec::new(alloc);
    texts.push(Bytes::new(alloc))?;
    let mut rest = Some(word);
    let mut inside = false;
    while let Some(bytes) = rest {
        let (text, more) = first_field(bytes, Mark::Brace);
        texts = extended(alloc, &texts, text, inside)?;
        inside = !inside;
        rest = more;
    }
    Ok(texts)
}

/// The words that the words of a text stand for.
pub fn expand(alloc: Global, text: &[u8]) -> Result<Vec<Bytes>, AllocError>
    ensures { IfOk result (λ words. words.items ≡ expanded text.now) }
{
    let mut words = Vec::new(alloc);
    let mut rest = Some(text);
    while let Some(bytes) = rest {
        let (word, more) = first_field(bytes, Mark::Blank);
        if !word.is_empty() {
            let mut spelled = spell(alloc, word)?;
            words.append(&mut spelled)?;
        }
        rest = more;
    }
    Ok(words)
}
