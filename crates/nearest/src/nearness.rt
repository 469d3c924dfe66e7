ghost use Rattle.std.specs.Prelude.{◌≡◌, map, IfOk};
ghost use Rattle.std.specs.Option.{option_copied};
ghost use Rattle.nearest.specs.Nearness.{edits, is_compared, is_near, nearest};
ghost use Rattle.nearest.specs.PrivateNearness.{fewer, better};

use plain::Memory;
use std::alloc::Global;
use strsim::osa_distance;

/// The most bytes of a text that is compared.
const MOST_COMPARED: usize = 64;

/// How many edits make one text of another, whatever the case of ASCII letters.
#[tactic(auto, unfolding(crate::specs::Nearness::edits))]
fn edits(alloc: Global, one: &str, other: &str) -> Result<usize, Memory>
    ensures { IfOk result (λ count. count ≡ edits one.now other.now) }
{
    let one = one.to_ascii_lowercase(alloc)?;
    let other = other.to_ascii_lowercase(alloc)?;
    Ok(osa_distance(alloc, one.as_str(), other.as_str())?)
}

/// Whether a text is short enough to be compared.
fn is_compared(text: &str) -> bool
    ensures { result ≡ is_compared text.now }
{
    text.len() <= MOST_COMPARED
}

/// Whether a word may stand for a name.
#[tactic(auto, unfolding(crate::specs::Nearness::is_near))]
fn is_near(alloc: Global, word: &str, name: &str) -> Result<bool, Memory>
    ensures { IfOk result (λ near. near ≡ is_near word.now name.now) }
{
    if word == name || !is_compared(word) || !is_compared(name) {
        return Ok(false);
    }
    let edits = edits(alloc, word, name)?;
    Ok(edits <= word.len() / 3)
}

/// Whether a name takes fewer edits than the best so far.
fn is_fewer(alloc: Global, word: &str, best: Option<&str>, name: &str) -> Result<bool, Memory>
    ensures { IfOk result (λ is. is ≡ fewer word.now (option_copied best.entry) name.now) }
{
    match best {
        None => Ok(true),
        Some(best) => Ok(edits(alloc, word, name)? < edits(alloc, word, best)?),
    }
}

/// The better of a name so far, if there is one, and the next one.
fn better<'a>(
    alloc: Global,
    word: &str,
    best: Option<&'a str>,
    name: &'a str,
) -> Result<Option<&'a str>, Memory>
    ensures { IfOk result (λ found. option_copied found ≡ better word.now (option_copied best.entry) name.now) }
{
    if is_near(alloc, word, name)? && is_fewer(alloc, word, best, name)? {
        return Ok(Some(name));
    }
    Ok(best)
}

/// The name that may have been meant by a word: of those names that are near to it the first that takes the fewest edits, whatever the case of ASCII
/// letters. An edit puts a character in, takes it away, replaces it, or changes its place with that of the next one. A name is near if it
/// isn't the word itself and takes at most one edit for each three bytes of the word. None if no name is near; a word or a name of more than 64 bytes never is.
pub fn nearest<'a>(alloc: Global, word: &str, names: &[&'a str]) -> Result<Option<&'a str>, Memory>
    ensures { IfOk result (λ found. option_copied found ≡ nearest word.now (map (λ it. it.now) names.now)) }
{
    let mut best = None;
    for name in names {
        best = better(alloc, word, best, *name)?;
    }
    Ok(best)
}
