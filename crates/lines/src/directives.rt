ghost use Rattle.std.specs.Prelude.{◌≡◌, option_map};
ghost use Rattle.lines.specs.Directives.{after_sharp, directive_in, directive_of, directive_named};

use crate::Escape;
use crate::blanks::starts_with;
use crate::escape::escape_named;
use ascii::trimmed;

/// A line at the top of a Dockerfile that sets something for the whole file, as `# escape=` and a backtick.
#[derive(Clone, Copy, Debug, PartialEq, Eq)]
pub enum Directive {
    /// `escape`, with the character that it names, or none where its value is bad.
    Escape(Option<Escape>),
    /// `syntax`, which isn't acted on.
    Syntax,
    /// `check`, which isn't acted on.
    Check,
}

/// The directive of a key and a value, both without blanks around them.
fn directive_named(key: &str, value: &str) -> Option<Directive>
    ensures { result ≡ directive_named key.now value.now }
{
    if value.is_empty() {
        return None;
    }
    if key.eq_ignore_ascii_case("escape") {
        return Some(Directive::Escape(escape_named(value)));
    }
    if key.eq_ignore_ascii_case("syntax") {
        return Some(Directive::Syntax);
    }
    if key.eq_ignore_ascii_case("check") {
        return Some(Directive::Check);
    }
    None
}

/// What follows the `#` with which a line begins.
fn after_sharp(line: &str) -> Option<&str>
    ensures { option_map (λ rest. rest.now) result ≡ after_sharp line.now }
{
    if !starts_with(line.as_bytes(), b'#') {
        return None;
    }
    Some(&line[1..])
}

/// The directive of what follows a line's `#`.
fn directive_in(rest: &str) -> Option<Directive>
    ensures { result ≡ directive_in rest.now }
{
    let (key, value) = rest.split_once('=')?;
    directive_named(trimmed(key), trimmed(value))
}

/// A line's directive, as `# escape=` and a backtick is one; none where the key is unknown or there is no value.
pub fn directive_of(line: &str) -> Option<Directive>
    ensures { result ≡ directive_of line.now }
{
    let rest = after_sharp(line)?;
    directive_in(rest)
}
