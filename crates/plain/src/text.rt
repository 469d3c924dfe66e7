ghost use Rattle.std.specs.Prelude.{◌≡◌, length, IfOk};
ghost use Rattle.std.specs.String.{string_bytes};
ghost use Rattle.plain.specs.PrivateHeld.{bytes_of};

use crate::{Exact, Memory};
use arrayvec::ArrayString;
use std::alloc::Global;
use std::cmp::Ordering;
use std::hash::{Hash, Hasher};
use std::marker::Model;
use std::sync::Arc;

/// The most bytes of a text that lies in the value itself: with more, a `Text` would take more than 32 bytes.
const SHORT: usize = 16;

/// Where a text's bytes lie: a short one's in the value itself, which takes no memory of its own and no step through a pointer; a long
/// one's in memory of its own, or in memory that its copies share, so that a value which thousands of rows hold is there once.
#[derive(Debug, Drop)]
enum Held {
    Short(ArrayString<SHORT>),
    Long(String),
    Shared(Arc<String, Global>),
}

/// A text, which contracts see as the list of its bytes in UTF-8. Texts are ordered by their bytes.
///
/// It is the one type of text of the workspace: a `String` in a field would show its capacity.
#[derive(Debug)]
pub struct Text {
    held: Held,
}

/// A text ends by a call, so that no proof above goes by where its bytes lie at each place where a text is let go.
impl Drop for Text {
    fn drop(self) {
        let Text { held: _ } = self;
    }
}

impl Model for Text {
    ghost use Rattle.std.specs.Prelude.{List, ℕ};
    ghost use Rattle.std.specs.Coded.{coded_list, coded_ℕ};
    ghost use Rattle.plain.specs.PrivateHeld.{bytes_of};

    ghost Value = { List ℕ };

    ghost coded = { coded_list coded_ℕ };

    ghost view = { λ t. bytes_of t.held };
}

impl Text {
    /// The text of a `String`. It takes no memory.
    pub fn from_string(text: String) -> Text
        ensures { result ≡ string_bytes text }
    {
        Text {
            held: Held::Long(text),
        }
    }

    /// A copy of a text. A short one takes no memory.
    pub fn from_str(alloc: Global, text: &str) -> Result<Text, Memory>
        ensures { IfOk result (λ copied. copied ≡ text.now) }
    {
        let held = match ArrayString::from(text) {
            Ok(short) => Held::Short(short),
            Err(_) => Held::Long(String::from_str(alloc, text)?),
        };
        Ok(Text { held })
    }

    /// The same text, whose copies share its bytes. It takes no memory for a text that lies in the value itself, or may lie there.
    pub fn shared(self, alloc: Global) -> Result<Text, Memory>
        ensures { IfOk result (λ text. text ≡ self) }
    {
        let Text { held } = self;
        let held = match held {
            Held::Long(text) => shared_string(alloc, text)?,
            held => held,
        };
        Ok(Text { held })
    }

    /// The text as a `String`. It takes memory for a text that lies in the value itself, and for one whose bytes others share.
    pub fn into_string(self, alloc: Global) -> Result<String, Memory>
        ensures { IfOk result (λ text. string_bytes text ≡ self) }
    {
        let Text { held } = self;
        match held {
            Held::Short(text) => Ok(String::from_str(alloc, text.as_str())?),
            Held::Long(text) => Ok(text),
            Held::Shared(text) => match Arc::try_unwrap(text) {
                Ok(text) => Ok(text),
                Err(text) => Ok(String::from_str(alloc, text.as_str())?),
            },
        }
    }

    /// The text, lent.
    pub fn as_str(&self) -> &str
        ensures { result.now ≡ self.now }
    {
        match &self.held {
            Held::Short(text) => text.as_str(),
            Held::Long(text) => text.as_str(),
            Held::Shared(text) => text.as_str(),
        }
    }

    /// How many bytes the text has.
    pub fn len(&self) -> usize
        ensures { result ≡ length self.now }
    {
        match &self.held {
            Held::Short(text) => text.len(),
            Held::Long(text) => text.len(),
            Held::Shared(text) => text.len(),
        }
    }
}

/// Where the bytes of a string lie so that copies share them.
fn shared_string(alloc: Global, text: String) -> Result<Held, Memory>
    ensures { IfOk result (λ held. bytes_of held ≡ string_bytes text) }
{
    match ArrayString::from(text.as_str()) {
        Ok(short) => Ok(Held::Short(short)),
        Err(_) => Ok(Held::Shared(Arc::new(alloc, text)?)),
    }
}

impl Exact for Text {
    fn same(&self, other: &Text) -> bool {
        self.as_str() == other.as_str()
    }

    fn copy(&self, alloc: Global) -> Result<Text, Memory> {
        let held = match &self.held {
            Held::Short(text) => Held::Short(*text),
            Held::Long(text) => Held::Long(String::from_str(alloc, text.as_str())?),
            Held::Shared(text) => Held::Shared(Arc::try_clone(text)?),
        };
        Ok(Text { held })
    }
}

impl PartialEq for Text {
    ghost use Rattle.std.specs.Prelude.{nat_eq};
    ghost use Rattle.std.specs.Cmp.{partial_equiv_from_equiv};
    ghost use Rattle.std.specs.Cmp.Lexicographic.{pointwise, nat_list_eq_equiv};

    ghost eq = { pointwise nat_eq };

    ghost laws = { partial_equiv_from_equiv nat_list_eq_equiv };

    fn eq(&self, other: &Text) -> bool {
        self.as_str() == other.as_str()
    }
}

impl Eq for Text {
    ghost use Rattle.std.specs.Cmp.Lexicographic.{nat_list_eq_equiv};

    ghost laws = { nat_list_eq_equiv };
}

impl Hash for Text {
    ghost use Rattle.std.specs.Hash.{str};
    ghost use Rattle.std.proofs.Common.{ap};
    ghost use Rattle.std.specs.Cmp.Lexicographic.{bytes_decides};

    ghost hash_input = { str };

    ghost respects_eq = { λ x y h. ap str ((bytes_decides x y).0 h) };

    fn hash<H: Hasher>(&self, state: &mut H) {
        self.as_str().hash(state);
    }
}

impl PartialOrd for Text {
    ghost use Rattle.std.specs.Prelude.{Some};
    ghost use Rattle.std.specs.Ordering.{nat_cmp};
    ghost use Rattle.std.specs.Cmp.Lexicographic.{slice_cmp, texts_po};

    ghost partial_cmp = { λ x y. Some (slice_cmp nat_cmp x y) };

    ghost laws = { texts_po };

    fn partial_cmp(&self, other: &Text) -> Option<Ordering> {
        Some(self.cmp(other))
    }
}

impl Ord for Text {
    ghost use Rattle.std.specs.Prelude.{refl};
    ghost use Rattle.std.specs.Ordering.{nat_cmp};
    ghost use Rattle.std.specs.Cmp.Lexicographic.{slice_cmp, nat_list_cmp_total, texts_ties};

    ghost cmp = { slice_cmp nat_cmp };

    ghost total = { nat_list_cmp_total };

    ghost matches_partial_cmp = { λ x y. refl };

    ghost matches_eq = { texts_ties };

    fn cmp(&self, other: &Text) -> Ordering {
        self.as_str().cmp(&other.as_str())
    }
}
