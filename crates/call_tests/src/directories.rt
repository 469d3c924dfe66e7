use paths::*;
use plain::{Exact, Fault, Memory, Text};
use std::alloc::Global;

/// The path of a text that is read from the root.
fn at(alloc: Global, text: &str) -> Result<Path, PathFault> {
    Path::read(alloc, text, &Path::root(alloc))
}

/// Whether the empty text leads from a text's path to that path.
fn is_left_alone(alloc: Global, text: &str) -> bool {
    match at(alloc, text) {
        Ok(path) => {
            let is_same = is_joined(alloc, &path);
            drop(path);
            is_same
        }
        Err(_) => false,
    }
}

fn is_joined(alloc: Global, path: &Path) -> bool {
    match path.join(alloc, "") {
        Ok(joined) => {
            let is_same = joined.same(path);
            drop(joined);
            is_same
        }
        Err(_) => false,
    }
}

// No WORKDIR is empty; what other texts lead to is a row.
#[test]
fn empty_texts_lead_nowhere(rt: HostRuntime) {
    assert!(rt; is_left_alone(rt.alloc(), "/") && is_left_alone(rt.alloc(), "/w/x"));
}

/// `times` copies of a piece, and then an end.
fn repeated(alloc: Global, piece: &str, times: usize, end: &str) -> Result<Text, Memory> {
    let mut text = piece.repeat(alloc, times)?;
    text.push_str(end)?;
    Ok(Text::from_string(text))
}

/// How deep the path is that begins with so many `a/`, and then has so many `b` and an end.
fn depth_of(alloc: Global, deep: usize, long: usize, end: &str) -> Result<usize, PathFault> {
    let name = repeated(alloc, "b", long, end)?;
    let text = repeated(alloc, "a/", deep, name.as_str())?;
    Ok(at(alloc, text.as_str())?.depth())
}

/// Whether such a path is so deep, or breaks that limit.
fn is_as_deep(alloc: Global, case: &(usize, usize, &str, Result<usize, PathLimit>)) -> bool {
    let (deep, long, end, want) = *case;
    match depth_of(alloc, deep, long, end) {
        Ok(depth) => want == Ok(depth),
        Err(Fault::Because(limit)) => want == Err(limit),
        Err(Fault::Memory) => false,
    }
}

/// The number of the first case that isn't so.
fn first_wrong(
    alloc: Global,
    cases: &[(usize, usize, &str, Result<usize, PathLimit>)],
) -> Option<usize> {
    for (number, case) in cases.iter().enumerate() {
        if !is_as_deep(alloc, case) {
            return Some(number);
        }
    }
    None
}

#[test]
fn limits_count_for_the_cleaned_path(rt: HostRuntime) {
    let cases = [
        (64, 0, "", Ok(64)),
        (65, 0, "", Err(PathLimit::TooDeep)),
        (65, 0, "/..", Ok(64)),
        (70, 0, "/../../..", Err(PathLimit::TooDeep)),
        (63, 255, "", Ok(64)),
        (63, 256, "", Err(PathLimit::TooLong)),
        (63, 256, "/..", Ok(63)),
        (63, 253, "é", Ok(64)),
        (63, 254, "é", Err(PathLimit::TooLong)),
        (64, 256, "", Err(PathLimit::TooDeep)),
        (63, 256, "/c", Err(PathLimit::TooDeep)),
        (63, 256, "/c/..", Err(PathLimit::TooLong)),
    ];
    assert_eq!(rt; first_wrong(rt.alloc(), cases.as_slice()), None);
}

/// Whether the path that a text leads to from the root is `/usr/bin`, as far as its parts show it.
fn has_parts(alloc: Global, path: &Path) -> Result<bool, Memory> {
    let is_named = path.name().map_or("", |name| name.as_str()) == "bin";
    let is_deep = !path.is_root() && path.components().len() == 2;
    match path.parent(alloc)? {
        Some(parent) => Ok(is_named && is_deep && is_below(alloc, path, &parent)?),
        None => Ok(false),
    }
}

/// Whether a path is below another one, which is `/usr`.
fn is_below(alloc: Global, path: &Path, parent: &Path) -> Result<bool, Memory> {
    let is_under = path.is_at_or_under(parent) && !parent.is_at_or_under(path);
    Ok(is_under && !path.same(parent) && parent.text(alloc)?.as_str() == "/usr")
}

#[test]
fn a_path_shows_its_parts(rt: HostRuntime) {
    let has_parts = match at(rt.alloc(), "usr/bin") {
        Ok(path) => has_parts(rt.alloc(), &path) == Ok(true),
        Err(_) => false,
    };
    assert!(rt; has_parts);
}

fn is_bare(alloc: Global, root: &Path) -> Result<bool, Memory> {
    Ok(root.is_root() && root.name().is_none() && root.parent(alloc)?.is_none())
}

#[test]
fn the_root_has_no_name(rt: HostRuntime) {
    let root = Path::root(rt.alloc());
    assert!(rt; is_bare(rt.alloc(), &root) == Ok(true));
}

/// Whether a text, so often behind itself, is a name.
fn is_name(alloc: Global, text: &str, times: usize) -> Result<bool, Memory> {
    Ok(Name::new(repeated(alloc, text, times, "")?).is_some())
}

#[test]
fn names_are_components(rt: HostRuntime) {
    for text in ["", ".", "..", "a/b", "/"] {
        assert!(rt; is_name(rt.alloc(), text, 1) == Ok(false), "{text}");
    }
    assert!(rt; is_name(rt.alloc(), "b", 255) == Ok(true));
    assert!(rt; is_name(rt.alloc(), "b", 256) == Ok(false));
}

/// Whether a path comes before another one.
fn is_before(alloc: Global, low: &str, high: &str) -> Result<bool, PathFault> {
    let low = at(alloc, low)?;
    let high = at(alloc, high)?;
    Ok(low < high && low != high)
}

#[test]
fn paths_are_ordered_by_components(rt: HostRuntime) {
    // By the bytes of the whole text `/a-b` would come before `/a/b`.
    for (low, high) in [
        ("/", "/a"),
        ("/a", "/a/b"),
        ("/a/b", "/a-b"),
        ("/a/z", "/aa"),
        ("/z", "/é"),
    ] {
        assert!(rt;
            is_before(rt.alloc(), low, high) == Ok(true),
            "{low} {high}"
        );
    }
}
