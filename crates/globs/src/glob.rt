ghost use Rattle.std.specs.Prelude.{◌≡◌, IfOk, map};
ghost use Rattle.globs.specs.Glob.{all_parts_of, glob_of, matches, IsGlobRead};

use crate::cutting::cut_components;
use crate::{Component, GlobFault, Malformed};
use paths::Path;
use plain::{Fault, Items, Memory, Text};
use std::alloc::Global;
use std::marker::Model;

/// A pattern of paths. Contracts see the parts of each of its components.
#[derive(Debug, Drop)]
pub struct Glob {
    components: Items<Component>,
}

impl Model for Glob {
    ghost use Rattle.std.specs.Prelude.{List};
    ghost use Rattle.globs.specs.declared.part.Part.{Part};

    ghost Value = { List (List Part) };

    ghost view = { λ glob. glob.components };
}

/// The components that these texts spell; none where one of them is malformed.
fn read_components(alloc: Global, texts: &[&str]) -> Result<Option<Items<Component>>, Memory>
    ensures { IfOk result (λ found. found ≡ all_parts_of (map (λ text. text.now) texts.now)) }
{
    let mut components = Vec::with_capacity(alloc, texts.len())?;
    for text in texts {
        match Component::read(alloc, text)? {
            Some(component) => components.push(component)?,
            None => return Ok(None),
        }
    }
    Ok(Some(Items::from_vec(components)))
}

/// Whether each component relates to its name, and there are as many of both.
fn match_all(components: &[Component], names: &[Text]) -> bool
    ensures { result ≡ matches components.now names.now }
{
    match components {
        [] => names.is_empty(),
        [component, others @ ..] => match names {
            [] => false,
            [name, more @ ..] => component.matches(name) && match_all(others, more),
        },
    }
}

impl Glob {
    /// The pattern that a text spells. It is cut at each `/`, empty components and `.` are dropped, and `..` drops the one before it;
    /// then `*` is any run of characters, `?` one character, `\c` the character c, `[..]` and `[^..]` one that is in a class or isn't,
    /// and any other character itself. A class holds no `/`, and no `\` escapes one, as the text was cut there (own).
    ///
    /// It is `Malformed` where a class isn't of its form or isn't closed, or a `\` stands at the end of a component.
    pub fn read(alloc: Global, text: &str) -> Result<Glob, GlobFault>
        ensures { IsGlobRead (glob_of text.now) result }
    {
        let texts = cut_components(alloc, text)?;
        match read_components(alloc, texts.as_slice())? {
            Some(components) => Ok(Glob { components }),
            None => Err(Fault::Because(Malformed)),
        }
    }

    /// The pattern's components, from the root down, lent: it relates to a path if it has as many names, and each component relates to
    /// its name.
    pub fn components(&self) -> &[Component]
        ensures { result.now ≡ self.now }
    {
        self.components.as_slice()
    }

    /// Whether the pattern relates to a path: it has as many components, and each relates to its name. It takes no memory, and costs
    /// at most the pattern's length times the path's.
    pub fn matches(&self, path: &Path) -> bool
        ensures { result ≡ matches self.now path.now }
    {
        if self.components.len() != path.depth() {
            return false;
        }
        match_all(self.components.as_slice(), path.components())
    }
}
