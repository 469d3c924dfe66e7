ghost use Rattle.std.specs.Prelude.{◌≡◌, ◌||◌, false, map};
ghost use Rattle.counted.specs.Gathering.{sink, Says, HasRoom};
ghost use Rattle.json.specs.Print.{quoted};
ghost use Rattle.serde_json.specs.Data.{string, object};
ghost use Rattle.serde_json.specs.View.{items_of};
ghost use Rattle.serde_json.specs.Written.{compact_text, items_text};
ghost use Rattle.strict.specs.Written.{list_data};
ghost use Rattle.imageconfig.specs.Writing.{is_set, variable_data};
ghost use Rattle.configtext.specs.PrivateFields.{said_if};
ghost use Rattle.configtext.specs.PrivateLabels.{label_members};

use crate::keys::{put_comma, put_key};
use crate::labels::put_members;
use counted::{CountedWrite, Gathered, gather};
use imageconfig::Environment;
use plain::Text;
use quoted::{put_quoted, put_text};
use std::collections::BTreeMap;

/// Says a field that is a list of texts, where it is set, and tells whether a field has been said by now.
pub(crate) fn put_list<W: CountedWrite>(
    output: &mut W,
    gathered: &mut Gathered,
    later: bool,
    key: &str,
    list: &[Text],
) -> bool
    requires room { HasRoom (W.failures output.old) gathered.old }
    ensures says { Says
        (sink (W.contents output.old) (W.failures output.old) gathered.old)
        (sink (W.contents output.new) (W.failures output.new) gathered.new)
        (said_if (is_set list.now) later key.now (compact_text (list_data string list.now))) }
    ensures later { result ≡ (is_set list.now || later) }
    ensures room { HasRoom (W.failures output.new) gathered.new }
{
    if list.is_empty() {
        return later;
    }
    put_key(output, gathered, later, key);
    gather(output, gathered, b"[");
    put_items(output, gathered, list);
    true
}

/// Says texts as the items of a list, with the bracket behind them.
fn put_items<W: CountedWrite>(output: &mut W, gathered: &mut Gathered, list: &[Text])
    requires room { HasRoom (W.failures output.old) gathered.old }
    ensures says { Says
        (sink (W.contents output.old) (W.failures output.old) gathered.old)
        (sink (W.contents output.new) (W.failures output.new) gathered.new)
        (items_text false (items_of (map string list.now))) }
    ensures room { HasRoom (W.failures output.new) gathered.new }
{
    let mut later = false;
    for text in list {
        put_comma(output, gathered, later);
        put_quoted(output, gathered, text.as_str().as_bytes());
        later = true;
    }
    gather(output, gathered, b"]");
}

/// Says the environment, where it is set, and tells whether a field has been said by now.
pub(crate) fn put_variables<W: CountedWrite>(
    output: &mut W,
    gathered: &mut Gathered,
    later: bool,
    key: &str,
    rows: &Environment,
) -> bool
    requires room { HasRoom (W.failures output.old) gathered.old }
    ensures says { Says
        (sink (W.contents output.old) (W.failures output.old) gathered.old)
        (sink (W.contents output.new) (W.failures output.new) gathered.new)
        (said_if (is_set rows.now) later key.now (compact_text (list_data variable_data rows.now))) }
    ensures later { result ≡ (is_set rows.now || later) }
    ensures room { HasRoom (W.failures output.new) gathered.new }
{
    if rows.is_empty() {
        return later;
    }
    put_key(output, gathered, later, key);
    gather(output, gathered, b"[");
    put_rows(output, gathered, rows);
    true
}

/// Says variables as the items of a list, with the bracket behind them.
fn put_rows<W: CountedWrite>(output: &mut W, gathered: &mut Gathered, rows: &Environment)
    requires room { HasRoom (W.failures output.old) gathered.old }
    ensures says { Says
        (sink (W.contents output.old) (W.failures output.old) gathered.old)
        (sink (W.contents output.new) (W.failures output.new) gathered.new)
        (items_text false (items_of (map variable_data rows.now))) }
    ensures room { HasRoom (W.failures output.new) gathered.new }
{
    let mut later = false;
    for (name, value) in rows.as_slice().iter() {
        put_comma(output, gathered, later);
        put_variable(output, gathered, name.as_str(), value.as_str());
        later = true;
    }
    gather(output, gathered, b"]");
}

/// Says a variable as a text `NAME=VALUE`, whose parts are never joined.
fn put_variable<W: CountedWrite>(output: &mut W, gathered: &mut Gathered, name: &str, value: &str)
    requires room { HasRoom (W.failures output.old) gathered.old }
    ensures says { Says
        (sink (W.contents output.old) (W.failures output.old) gathered.old)
        (sink (W.contents output.new) (W.failures output.new) gathered.new)
        (compact_text (variable_data (name.now, value.now))) }
    ensures room { HasRoom (W.failures output.new) gathered.new }
{
    gather(output, gathered, b"\"");
    put_text(output, gathered, name.as_bytes());
    gather(output, gathered, b"=");
    put_text(output, gathered, value.as_bytes());
    gather(output, gathered, b"\"");
}

/// Says the labels, where they are set, and tells whether a field has been said by now.
pub(crate) fn put_labels<W: CountedWrite>(
    output: &mut W,
    gathered: &mut Gathered,
    later: bool,
    key: &str,
    are_set: bool,
    labels: &BTreeMap<&str, &str>,
) -> bool
    requires room { HasRoom (W.failures output.old) gathered.old }
    ensures says { Says
        (sink (W.contents output.old) (W.failures output.old) gathered.old)
        (sink (W.contents output.new) (W.failures output.new) gathered.new)
        (said_if are_set later key.now (compact_text (object (label_members labels.now.entries)))) }
    ensures later { result ≡ (are_set || later) }
    ensures room { HasRoom (W.failures output.new) gathered.new }
{
    if !are_set {
        return later;
    }
    put_key(output, gathered, later, key);
    gather(output, gathered, b"{");
    put_members(output, gathered, labels);
    true
}

/// Says a field that is a text, where it is set, and tells whether a field has been said by now.
pub(crate) fn put_string<W: CountedWrite>(
    output: &mut W,
    gathered: &mut Gathered,
    later: bool,
    key: &str,
    text: &Text,
) -> bool
    requires room { HasRoom (W.failures output.old) gathered.old }
    ensures says { Says
        (sink (W.contents output.old) (W.failures output.old) gathered.old)
        (sink (W.contents output.new) (W.failures output.new) gathered.new)
        (said_if (is_set text.now) later key.now (quoted text.now)) }
    ensures later { result ≡ (is_set text.now || later) }
    ensures room { HasRoom (W.failures output.new) gathered.new }
{
    let bytes = text.as_str().as_bytes();
    if bytes.is_empty() {
        return later;
    }
    put_key(output, gathered, later, key);
    put_quoted(output, gathered, bytes);
    true
}

/// Says a field whose value is JSON already, where it is set, and tells whether a field has been said by now.
pub(crate) fn put_ready<W: CountedWrite>(
    output: &mut W,
    gathered: &mut Gathered,
    later: bool,
    key: &str,
    is_set: bool,
    text: &str,
) -> bool
    requires room { HasRoom (W.failures output.old) gathered.old }
    ensures says { Says
        (sink (W.contents output.old) (W.failures output.old) gathered.old)
        (sink (W.contents output.new) (W.failures output.new) gathered.new)
        (said_if is_set later key.now text.now) }
    ensures later { result ≡ (is_set || later) }
    ensures room { HasRoom (W.failures output.new) gathered.new }
{
    if !is_set {
        return later;
    }
    put_key(output, gathered, later, key);
    gather(output, gathered, text.as_bytes());
    true
}
