ghost use Rattle.std.specs.Prelude.{◌≡◌, IfOk};
ghost use Rattle.serde_json.specs.View.{view};
ghost use Rattle.words.specs.Form.{texts_in, json_form};
ghost use Rattle.words.specs.PrivateForm.{begins_list};

use plain::{Items, Memory, Text};
use serde_json::Value;
use std::alloc::Global;

/// The texts of a text in JSON form, which is a list of texts in JSON (Dockerfile reference, exec form), with JSON's own
/// white space around it.
///
/// Anything else has no JSON form and is no fault of its own: other text, a list with a number or a list in it, text
/// after the list.
#[tactic(auto, unfolding(crate::specs::Form::json_form))]
pub fn json_form(alloc: Global, text: &str) -> Result<Option<Items<Text>>, Memory>
    ensures { IfOk result (λ form. form ≡ json_form text.now) }
{
    if !begins_list(text) {
        return Ok(None);
    }
    match Value::from_str(alloc, text) {
        Ok(value) => texts_in(alloc, &value),
        Err(error) => {
            if error.is_memory() {
                Err(Memory)
            } else {
                Ok(None)
            }
        }
    }
}

/// Whether a text begins with `[` behind JSON's white space, as each list does. A reader of JSON clears 16 KiB and takes memory as long as the
/// text before it looks at a byte, and few texts that are asked for their JSON form have one, so this is asked first.
fn begins_list(text: &str) -> bool
    ensures { result ≡ begins_list text.now }
{
    for byte in text.as_bytes() {
        match byte {
            b' ' | b'\t' | b'\n' | b'\r' => {}
            byte => return *byte == b'[',
        }
    }
    false
}

/// The texts of a list in JSON, where it is one and holds nothing else.
fn texts_in(alloc: Global, value: &Value) -> Result<Option<Items<Text>>, Memory>
    ensures { IfOk result (λ texts. texts ≡ texts_in (view value.now)) }
{
    let Some(values) = value.as_array() else {
        return Ok(None);
    };
    let mut texts = Items::new(alloc);
    for value in values {
        let Some(text) = value.as_str() else {
            return Ok(None);
        };
        texts.push(Text::from_str(alloc, text)?)?;
    }
    Ok(Some(texts))
}
