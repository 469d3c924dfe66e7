ghost use Rattle.std.specs.Prelude.{◌≡◌, ◌++◌, ◌∷◌, IfOk, false};
ghost use Rattle.counted.specs.Gathering.{sink, Says, HasRoom};
ghost use Rattle.json.specs.Print.{quoted};
ghost use Rattle.serde_json.specs.Data.{no_members};
ghost use Rattle.serde_json.specs.Written.{comma_if, members_text};
ghost use Rattle.imageconfig.specs.Writing.{put_texts_of};
ghost use Rattle.configtext.specs.PrivateLabels.{label_members};

use crate::keys::put_key;
use counted::{CountedWrite, Gathered, gather};
use imageconfig::Rows;
use plain::Memory;
use quoted::put_quoted;
use std::alloc::Global;
use std::collections::BTreeMap;

/// Labels in the order of their keys' bytes, in which an object is written. The configuration has them in the order in which they came.
pub(crate) fn sort_labels<'a>(
    alloc: Global,
    rows: &'a Rows,
) -> Result<BTreeMap<&'a str, &'a str>, Memory>
    ensures { IfOk result (λ labels. label_members labels.entries ≡ put_texts_of rows.now no_members) }
{
    let mut sorted = BTreeMap::new(alloc);
    for (key, value) in rows.as_slice().iter() {
        sorted.insert(key.as_str(), value.as_str())?;
    }
    Ok(sorted)
}

/// Says labels as the members of an object, with the brace behind them.
pub(crate) fn put_members<W: CountedWrite>(
    output: &mut W,
    gathered: &mut Gathered,
    labels: &BTreeMap<&str, &str>,
)
    requires room { HasRoom (W.failures output.old) gathered.old }
    ensures says { Says
        (sink (W.contents output.old) (W.failures output.old) gathered.old)
        (sink (W.contents output.new) (W.failures output.new) gathered.new)
        (members_text false (label_members labels.now.entries)) }
    ensures room { HasRoom (W.failures output.new) gathered.new }
{
    let mut later = false;
    for (key, value) in labels.iter() {
        put_label(output, gathered, later, key, value);
        later = true;
    }
    gather(output, gathered, b"}");
}

/// Says a label, behind a comma where others stand before.
fn put_label<W: CountedWrite>(
    output: &mut W,
    gathered: &mut Gathered,
    later: bool,
    key: &str,
    value: &str,
)
    requires room { HasRoom (W.failures output.old) gathered.old }
    ensures says { Says
        (sink (W.contents output.old) (W.failures output.old) gathered.old)
        (sink (W.contents output.new) (W.failures output.new) gathered.new)
        (comma_if later ++ (quoted key.now ++ (58 ∷ quoted value.now))) }
    ensures room { HasRoom (W.failures output.new) gathered.new }
{
    put_key(output, gathered, later, key);
    put_quoted(output, gathered, value.as_bytes());
}
