// What steps are written with. A text that is nothing of the kind is told as want of memory: no case has one.
use paths::Path;
use plain::{Items, Memory, Mode, Owner};
use std::alloc::Global;
use trees::{Meta, Tree};

/// A text's first word, and what comes behind it.
pub fn cut(text: &str) -> (&str, &str) {
    text.split_once(' ').unwrap_or((text, ""))
}

/// The words of a command line after the program's name.
pub fn after_name<'a>(words: &'a [&'a str]) -> &'a [&'a str] {
    match words {
        [_, after @ ..] => after,
        [] => words,
    }
}

/// A number in decimal digits.
pub fn number(text: &str) -> Result<u32, Memory> {
    text.parse::<u32>().ok().ok_or(Memory)
}

pub fn path_of(alloc: Global, text: &str) -> Result<Path, Memory> {
    match Path::read(alloc, text, &Path::root(alloc)) {
        Ok(path) => Ok(path),
        Err(_) => Err(Memory),
    }
}

/// Paths with a space between each two.
pub fn paths_of(alloc: Global, texts: &str) -> Result<Items<Path>, Memory> {
    let mut paths = Items::new(alloc);
    for text in texts.split(' ') {
        paths.push(path_of(alloc, text)?)?;
    }
    Ok(paths)
}

/// The trees from a number on.
pub fn trees_from<'a>(trees: &'a [Tree], number: &str) -> Result<&'a [Tree], Memory> {
    match number.parse::<usize>() {
        Ok(number) => trees.get(number..).ok_or(Memory),
        Err(_) => Err(Memory),
    }
}

/// The tree of a number.
pub fn tree_at<'a>(trees: &'a [Tree], number: &str) -> Result<&'a Tree, Memory> {
    match trees_from(trees, number)? {
        [tree, ..] => Ok(tree),
        [] => Err(Memory),
    }
}

/// A mode and an owner, as `644:0:0`.
pub fn mode_and_owner(text: &str) -> Option<(Mode, Owner)> {
    let (mode, owner) = text.split_once(':')?;
    let (user, group) = owner.split_once(':')?;
    let mode = Mode::new(u16::from_str_radix(mode, 8).ok()?)?;
    let user = user.parse::<u32>().ok()?;
    let group = group.parse::<u32>().ok()?;
    Some((mode, Owner { user, group }))
}

/// The same of an entry.
pub fn meta_of(text: &str) -> Result<Meta, Memory> {
    match mode_and_owner(text) {
        Some((mode, owner)) => Ok(Meta {
            mode,
            uid: owner.user,
            gid: owner.group,
        }),
        None => Err(Memory),
    }
}
