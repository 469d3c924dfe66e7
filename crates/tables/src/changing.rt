use crate::reading::{cut, meta_of, mode_and_owner, path_of, paths_of, tree_at, trees_from};
use paths::{Name, Path};
use plain::{Bytes, Exact, Fault, Memory, Text};
use std::alloc::Global;
use trees::{Content, CopyOptions, Entry, Meta, Source, Tree, TreeFault};

/// Changes a tree as a step says.
pub fn change(
    alloc: Global,
    trees: &[Tree],
    tree: &mut Tree,
    verb: &str,
    rest: &str,
) -> Result<(), TreeFault> {
    match verb {
        "files" => put_files(alloc, tree, rest),
        "file" => put_file(alloc, tree, rest),
        "folder" => put_folder(alloc, tree, rest),
        "copy" => copy(alloc, trees, tree, rest),
        "heredoc" => copy_heredoc(alloc, tree, rest),
        "over" => lay_over(alloc, tree, tree_at(trees, rest)?),
        "merged" => merge(alloc, tree, trees_from(trees, rest)?),
        _ => change_at(alloc, tree, verb, &path_of(alloc, rest)?),
    }
}

fn change_at(alloc: Global, tree: &mut Tree, verb: &str, path: &Path) -> Result<(), TreeFault> {
    match verb {
        "dirs" => tree.mkdirs(alloc, path),
        "remove" => tree.remove(alloc, path),
        "below" => {
            *tree = tree.subtree(alloc, path)?;
            Ok(())
        }
        _ => Err(Fault::Memory),
    }
}

fn lay_over(alloc: Global, tree: &mut Tree, upper: &Tree) -> Result<(), TreeFault> {
    *tree = Tree::over(alloc, tree, upper)?;
    Ok(())
}

fn merge(alloc: Global, tree: &mut Tree, trees: &[Tree]) -> Result<(), TreeFault> {
    *tree = Tree::merged(alloc, trees)?;
    Ok(())
}

fn put_files(alloc: Global, tree: &mut Tree, names: &str) -> Result<(), TreeFault> {
    for name in names.split(' ') {
        put(alloc, tree, Meta::file(), name, name)?;
    }
    Ok(())
}

fn put_file(alloc: Global, tree: &mut Tree, text: &str) -> Result<(), TreeFault> {
    let (meta, rest) = cut(text);
    let (name, text) = cut(rest);
    put(alloc, tree, meta_of(meta)?, name, text)
}

fn put_folder(alloc: Global, tree: &mut Tree, text: &str) -> Result<(), TreeFault> {
    let (meta, name) = cut(text);
    let entry = Entry::Directory(meta_of(meta)?);
    tree.put(alloc, &path_of(alloc, name)?, entry)
}

/// Puts a file into a tree.
pub fn put(
    alloc: Global,
    tree: &mut Tree,
    meta: Meta,
    name: &str,
    text: &str,
) -> Result<(), TreeFault> {
    let path = path_of(alloc, name)?;
    let content = content_of(alloc, text)?;
    tree.put(alloc, &path, Entry::File(meta, content))
}

fn content_of(alloc: Global, text: &str) -> Result<Content, Memory> {
    Content::new(alloc, Bytes::from_slice(alloc, text.as_bytes())?)
}

fn copy(alloc: Global, trees: &[Tree], tree: &mut Tree, text: &str) -> Result<(), TreeFault> {
    let (number, rest) = cut(text);
    let (meta, rest) = cut(rest);
    let (dest, sources) = cut(rest);
    let from = tree_at(trees, number)?;
    if has_flags(alloc, meta, dest)? == (meta == "-") {
        return Err(Fault::Memory);
    }
    copy_found(alloc, tree, from, meta, dest, sources)
}

/// Whether a copy of these options is another one than that of a COPY without flags.
fn has_flags(alloc: Global, meta: &str, dest: &str) -> Result<bool, Memory> {
    let options = options_of(meta, dest);
    Ok(!is_plain(alloc, &options, dest)?)
}

fn copy_found(
    alloc: Global,
    tree: &mut Tree,
    from: &Tree,
    meta: &str,
    dest: &str,
    sources: &str,
) -> Result<(), TreeFault> {
    let source = Source::Found(paths_of(alloc, sources)?);
    copy_source(alloc, tree, from, source, dest, &options_of(meta, dest))
}

/// Whether a copy of these options is the same as those of a COPY without flags.
fn is_plain(alloc: Global, options: &CopyOptions, dest: &str) -> Result<bool, Memory> {
    let plain = options_of("-", dest);
    match options.copy(alloc) {
        Ok(copy) => Ok(copy.same(&plain)),
        Err(memory) => Err(memory),
    }
}

fn copy_heredoc(alloc: Global, tree: &mut Tree, text: &str) -> Result<(), TreeFault> {
    let (name, rest) = cut(text);
    let (text, dest) = cut(rest);
    let source = heredoc(alloc, name, text)?;
    let from = Tree::empty(alloc);
    let done = copy_source(alloc, tree, &from, source, dest, &options_of("-", dest));
    drop(from);
    done
}

fn heredoc(alloc: Global, name: &str, text: &str) -> Result<Source, Memory> {
    let content = content_of(alloc, text)?;
    match Name::new(Text::from_str(alloc, name)?) {
        Some(name) => Ok(Source::Data(name, content)),
        None => Err(Memory),
    }
}

fn copy_source(
    alloc: Global,
    tree: &mut Tree,
    from: &Tree,
    source: Source,
    dest: &str,
    options: &CopyOptions,
) -> Result<(), TreeFault> {
    let dest = path_of(alloc, dest)?;
    let sources = [source];
    tree.copy_into(alloc, from, &sources, &dest, options)
}

/// The options of a COPY, whose destination is a directory where its text ends in `/`.
fn options_of(meta: &str, dest: &str) -> CopyOptions {
    let into = dest.ends_with('/');
    match mode_and_owner(meta) {
        Some((mode, owner)) => CopyOptions {
            into,
            owner: Some(owner),
            mode: Some(mode),
        },
        None => CopyOptions {
            into,
            owner: None,
            mode: None,
        },
    }
}
