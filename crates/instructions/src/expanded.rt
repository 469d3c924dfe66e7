ghost use Rattle.std.specs.Prelude.{◌≡◌, ◌==◌, length, nat_lt, IfOk};
ghost use Rattle.expand.specs.Word.{Finds};
ghost use Rattle.instructions.specs.Expanded.{all_words, texts_by, kind_of};
ghost use Rattle.instructions.specs.PrivateLent.{lent_texts};

use expand::{Kind, Word};
use lines::Escape;
use plain::{Items, Memory, Text};
use std::alloc::Global;
use words::{TextFault, split};

/// The words that texts are; R09 where one of them is none.
pub(crate) fn all_words(
    alloc: Global,
    kind: Kind,
    escape: Escape,
    texts: &[&str],
) -> Result<Items<Word>, TextFault>
    ensures { Finds (all_words kind escape (lent_texts texts.now)) result }
{
    let mut found = Items::new(alloc);
    for text in texts {
        let word = Word::read(alloc, kind, escape, text)?;
        found.push(word)?;
    }
    Ok(found)
}

/// The strings of a list in JSON, else the words of the text.
pub(crate) fn texts<'a>(
    alloc: Global,
    escape: Escape,
    text: &'a str,
    form: &'a Option<Items<Text>>,
) -> Result<Vec<&'a str>, Memory>
    ensures { IfOk result (λ texts. lent_texts texts.items ≡ texts_by escape text.now form.now) }
{
    let Some(strings) = form else {
        return split(alloc, escape, text);
    };
    let mut texts = Vec::new(alloc);
    for string in strings.as_slice() {
        texts.push(string.as_str())?;
    }
    Ok(texts)
}

/// Whether there is no text.
#[tactic(auto, using(crate::proofs::TextLemmas::length_lent))]
pub(crate) fn are_none(texts: &[&str]) -> bool
    ensures { result ≡ (length (lent_texts texts.now) == 0) }
{
    texts.is_empty()
}

/// Whether there are fewer than two texts.
#[tactic(auto, using(crate::proofs::TextLemmas::length_lent))]
pub(crate) fn are_too_few(texts: &[&str]) -> bool
    ensures lent { result ≡ nat_lt (length (lent_texts texts.now)) 2 }
    ensures count { result ≡ nat_lt (length texts.now) 2 }
{
    texts.len() < 2
}

/// What quotes do in the texts of a list in JSON, and in words.
pub(crate) fn kind_of(is_list: bool) -> Kind
    ensures { result ≡ kind_of is_list }
{
    if is_list {
        Kind::Unquoted
    } else {
        Kind::Quoted
    }
}
