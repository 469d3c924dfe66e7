ghost use Rattle.std.specs.Prelude.{◌≡◌, IfOk, OnOk, map};
ghost use Rattle.paths.specs.Path.{is_idle, is_up};
ghost use Rattle.paths.specs.Reading.{stepped};
ghost use Rattle.globs.specs.Glob.{components_of};

use plain::Memory;
use std::alloc::Global;

/// Whether a piece is dropped: it is empty or `.`.
fn is_idle(piece: &str) -> bool
    ensures { result ≡ is_idle piece.now }
{
    matches!(piece.as_bytes(), [] | [b'.'])
}

/// Whether a piece drops the one before it: it is `..`.
fn is_up(piece: &str) -> bool
    ensures { result ≡ is_up piece.now }
{
    matches!(piece.as_bytes(), [b'.', b'.'])
}

/// Goes on by one piece of a pattern's text.
fn step<'a>(kept: &mut Vec<&'a str>, piece: &'a str) -> Result<(), Memory>
    ensures { OnOk result (map (λ text. text.now) kept.new.items ≡ stepped (map (λ text. text.now) kept.old.items) piece.entry.now) }
{
    if is_idle(piece) {
        return Ok(());
    }
    if is_up(piece) {
        kept.pop();
        return Ok(());
    }
    kept.push(piece)?;
    Ok(())
}

/// The texts of a pattern's components, as parts of its text. A path's limits don't apply: there may be any number of them, of any length.
pub fn cut_components<'a>(alloc: Global, text: &'a str) -> Result<Vec<&'a str>, Memory>
    ensures { IfOk result (λ found. map (λ text. text.now) found.items ≡ components_of text.entry.now) }
{
    let mut kept = Vec::new(alloc);
    for piece in text.split('/') {
        step(&mut kept, piece)?;
    }
    Ok(kept)
}
