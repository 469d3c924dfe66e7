// Images as lines of JSON.
ghost use Rattle.std.specs.Prelude.{◌≡◌, false, IfOk};
ghost use Rattle.std.specs.String.{string_bytes};
ghost use Rattle.serde_json.specs.Data.{number, unsigned};
ghost use Rattle.serde_json.specs.View.{view};
ghost use Rattle.serde_json.specs.Written.{compact_text, has_float};
ghost use Rattle.counted.specs.Edges.{line_of};
ghost use Rattle.strict.specs.Written.{list_data};
ghost use Rattle.imagelist.specs.Telling.{image_data, image_line, images_text};

use crate::image_rows::{ImageRows, ImageUse};
use plain::{Bytes, Memory};
use serde_json::{Value, json};
use std::alloc::Global;

/// Lines by their numbers, as JSON.
fn lines_value(alloc: Global, lines: &[u32]) -> Result<Value, Memory>
    ensures { IfOk result (λ v. view v ≡ list_data (λ line. number (unsigned line)) lines.now) }
{
    let mut values = Vec::with_capacity(alloc, lines.len())?;
    for line in lines {
        values.push(Value::from(u64::from(*line)))?;
    }
    Ok(Value::Array(values))
}

/// An image of a platform, as JSON.
#[tactic(auto, unfolding(crate::specs::Telling::image_data))]
fn image_value(alloc: Global, platform: &str, name: &str, used: &ImageUse) -> Result<Value, Memory>
    ensures { IfOk result (λ v. view v ≡ image_data platform.now name.now used.now) }
{
    let lines = lines_value(alloc, used.lines.as_slice())?;
    let needed = used.needed;
    Ok(json!(in alloc; {"lines": lines, "name": name, "needed": needed, "platform": platform})?)
}

/// A value as a line of compact JSON, with the LF that ends it.
fn written_line(alloc: Global, value: Value) -> Result<String, Memory>
    ensures { IfOk result (λ text. has_float (view value) ≡ false → string_bytes text ≡ line_of (compact_text (view value))) }
{
    let written = value.to_string(alloc);
    drop(value);
    let mut written = written?;
    written.push_str("\n")?;
    Ok(written)
}

/// The line of an image of a platform.
fn image_line(alloc: Global, platform: &str, name: &str, used: &ImageUse) -> Result<String, Memory>
    ensures { IfOk result (λ line. string_bytes line ≡ image_line platform.now name.now used.now) }
{
    let value = image_value(alloc, platform, name, used)?;
    written_line(alloc, value)
}

/// The lines of images of a platform.
pub(crate) fn images_text(
    alloc: Global,
    platform: &str,
    images: &ImageRows,
) -> Result<Bytes, Memory>
    ensures { IfOk result (λ text. text ≡ images_text platform.now images.now) }
{
    let mut text = String::new(alloc);
    for (name, used) in images.as_slice().iter() {
        let line = image_line(alloc, platform, name.as_str(), used)?;
        text.push_str(line.as_str())?;
    }
    Ok(Bytes::from_vec(text.into_bytes()))
}
