use expand::{Lookup, Unexpanded, Word, expand};
use plain::{Code, Fault, Memory, Text};
use std::alloc::Global;
use words::TextFault;

/// A scope in which `w` has the value `$v}`, `v` perhaps one, and nothing else is set.
#[derive(Drop)]
pub struct Names {
    v: Option<Text>,
    w: Text,
}

impl Names {
    /// The scope in which `v` has this value.
    pub fn new(alloc: Global, v: Option<&str>) -> Result<Names, Memory> {
        let v = match v {
            Some(text) => Some(Text::from_str(alloc, text)?),
            None => None,
        };
        let w = Text::from_str(alloc, "$v}")?;
        Ok(Names { v, w })
    }
}

impl Lookup for Names {
    ghost use Rattle.std.specs.Prelude.{◌∷◌, [], Some, None, bytes_eq, if◌then◌else◌};

    ghost value_of = { λ names name. if bytes_eq name (118 ∷ []) then names.v else (if bytes_eq name (119 ∷ []) then Some names.w else None) };

    fn find(&self, name: &Text) -> Option<&Text> {
        if name.as_str() == "v" {
            self.v.as_ref()
        } else if name.as_str() == "w" {
            Some(&self.w)
        } else {
            None
        }
    }
}

/// The value of a word in a scope; if it requires a variable that doesn't pass its test, `R21` and the text that it is refused with.
pub fn value_under(alloc: Global, word: &Word, names: &Names) -> Result<Text, TextFault> {
    match expand(alloc, word, names) {
        Ok(text) => Ok(text),
        Err(Fault::Because(Unexpanded::TooLong)) => Err(Fault::Because(Code::R18)),
        Err(Fault::Because(Unexpanded::Required(text))) => {
            let shown = format!(in alloc; "R21 {}", text.as_str())?;
            drop(text);
            Ok(Text::from_string(shown))
        }
        Err(Fault::Memory) => Err(Fault::Memory),
    }
}
