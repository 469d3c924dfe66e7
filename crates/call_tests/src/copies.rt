use lines::{Escape, Heredoc, Line, Reader};
use paths::{LongPath, Name, Path};
use plain::{Bytes, Exact, Memory, Mode, Owner, Sharing, Text, Variable, VariableName};
use std::alloc::Global;

/// Whether a value has a copy, which is the same value.
fn is_copied<T: Exact + Drop>(alloc: Global, value: &T) -> bool {
    match value.copy(alloc) {
        Ok(copy) => {
            let is_same = value.same(&copy);
            drop(copy);
            is_same
        }
        Err(Memory) => false,
    }
}

#[test]
fn small_values_are_copied(rt: HostRuntime) {
    let alloc: Global = rt.alloc();
    assert!(rt; is_copied(alloc, &7u8) && is_copied(alloc, &7u16) && is_copied(alloc, &7u32));
    assert!(rt; is_copied(alloc, &true) && is_copied(alloc, &Sharing::Locked));
    assert!(rt; is_copied(alloc, &Mode::file()) && is_copied(alloc, &Owner { user: 1, group: 2 }));
    let fine: Result<u8, Sharing> = Ok(7);
    assert!(rt; is_copied(alloc, &fine) && !fine.same(&Err(Sharing::Shared)));
}

/// Whether bytes that are no text are copied, and longer ones are others.
fn are_bytes_copied(alloc: Global) -> Result<bool, Memory> {
    let bytes = Bytes::from_slice(alloc, &[255, 0])?;
    let longer = Bytes::from_slice(alloc, &[255, 0, 0])?;
    Ok(is_copied(alloc, &bytes) && !bytes.same(&longer))
}

/// Whether a text is copied, also where there may be none.
fn are_texts_copied(alloc: Global) -> Result<bool, Memory> {
    let text = Text::from_str(alloc, "né")?;
    let is_text_copied = is_copied(alloc, &text);
    let some: Option<Text> = Some(text);
    Ok(is_text_copied && is_copied(alloc, &some) && !some.same(&None))
}

fn is_variable_copied(alloc: Global) -> Result<bool, Memory> {
    let name = VariableName::of(Text::from_str(alloc, "PATH")?);
    let value = Text::from_str(alloc, "/bin")?;
    Ok(is_copied(alloc, &Variable { name, value }))
}

#[test]
fn texts_in_values_are_copied(rt: HostRuntime) {
    assert!(rt; are_bytes_copied(rt.alloc()) == Ok(true));
    assert!(rt; are_texts_copied(rt.alloc()) == Ok(true));
    assert!(rt; is_variable_copied(rt.alloc()) == Ok(true));
}

/// The path of a name below the root.
fn path_of(alloc: Global, name: &Name) -> Result<Path, Memory> {
    let root = Path::root(alloc);
    let child = root.child(alloc, name.as_text());
    drop(root);
    child
}

/// The long path of a name in the directory at a path.
fn long_of(alloc: Global, path: &Path, name: &Name) -> Result<LongPath, Memory> {
    let long = LongPath::of(alloc, path)?;
    let child = long.child(alloc, name.as_text());
    drop(long);
    child
}

/// Whether the long path of a name in a directory below the root is copied, and is a path.
fn is_long_copied(alloc: Global, path: &Path, name: &Name) -> bool {
    match long_of(alloc, path, name) {
        Ok(long) => {
            let is_same = is_copied(alloc, &long) && long.components().len() == 2;
            let path = long.into_path();
            is_same && path.is_some()
        }
        Err(Memory) => false,
    }
}

/// Whether a name, its path below the root and the long path of it twice are copied.
fn are_paths_copied(alloc: Global, name: &Name) -> bool {
    match path_of(alloc, name) {
        Ok(path) => {
            let is_same = path.depth() == 1 && is_copied(alloc, name) && is_copied(alloc, &path);
            let is_long_same = is_long_copied(alloc, &path, name);
            drop(path);
            is_same && is_long_same
        }
        Err(Memory) => false,
    }
}

/// Whether a text is a name, and its paths are copied.
fn has_copied_paths(alloc: Global, text: Text) -> bool {
    match Name::new(text) {
        Some(name) => {
            let are_copied = are_paths_copied(alloc, &name);
            drop(name);
            are_copied
        }
        None => false,
    }
}

#[test]
fn paths_are_copied(rt: HostRuntime) {
    let are_copied = match Text::from_str(rt.alloc(), "usr") {
        Ok(text) => has_copied_paths(rt.alloc(), text),
        Err(Memory) => false,
    };
    assert!(rt; are_copied);
}

/// Whether two heredocs are others.
fn are_others(heredocs: &[Heredoc]) -> bool {
    match heredocs {
        [first, second] => !first.same(second) && !first.mark.same(&second.mark),
        _ => false,
    }
}

/// Whether there is one line, which is copied.
fn is_line_copied(alloc: Global, lines: &[Line]) -> bool {
    match lines {
        [line] => {
            is_copied(alloc, line)
                && line.escape.same(&Escape::Backslash)
                && line.escape.byte() == b'\\'
                && are_others(line.heredocs.as_slice())
        }
        _ => false,
    }
}

#[test]
fn lines_are_exact(rt: HostRuntime) {
    let mut reader = Reader::new(rt.alloc());
    let is_fed = reader
        .feed(rt.alloc(), b"COPY <<-'E' <<F /d\nx\nE\nF")
        .is_ok();
    let are_copied = match reader.finish(rt.alloc()) {
        Ok(lines) => {
            let is_one = is_line_copied(rt.alloc(), &lines);
            drop(lines);
            is_one
        }
        Err(_) => false,
    };
    assert!(rt; is_fed && are_copied);
}
