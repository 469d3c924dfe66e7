// Messages of two sentences.
ghost use Rattle.std.specs.Prelude.{◌≡◌, map, IfOk};
ghost use Rattle.std.specs.String.{string_bytes};
ghost use Rattle.meant.specs.Said.{said, said_near};

use nearest::nearest;
use plain::{Memory, Text};
use sentences::{Message, wrong_with};
use std::alloc::Global;

/// The message of two sentences.
pub(crate) fn said(alloc: Global, wrong: String, helps: &str) -> Result<Message, Memory>
    ensures { IfOk result (λ message. message ≡ said (string_bytes wrong) helps.now) }
{
    let helps = Text::from_str(alloc, helps)?;
    Ok(Message {
        wrong: Text::from_string(wrong),
        helps,
    })
}

/// The same of two texts.
pub(crate) fn said_texts(wrong: String, helps: String) -> Message
    ensures { result ≡ said (string_bytes wrong) (string_bytes helps) }
{
    Message {
        wrong: Text::from_string(wrong),
        helps: Text::from_string(helps),
    }
}

/// The same, and the name that may have been meant by a word, if one of these is near.
pub(crate) fn said_near(
    alloc: Global,
    wrong: String,
    word: &str,
    names: &[&str],
    helps: &str,
) -> Result<Message, Memory>
    ensures { IfOk result (λ message. message ≡ said_near (string_bytes wrong) word.now (map (λ name. name.now) names.now) helps.now) }
{
    let meant = nearest(alloc, word, names)?;
    let wrong = wrong_with(alloc, wrong.as_str(), meant)?;
    said(alloc, wrong, helps)
}

/// The same where what helps is made too.
pub(crate) fn said_near_texts(
    alloc: Global,
    wrong: String,
    word: &str,
    names: &[&str],
    helps: String,
) -> Result<Message, Memory>
    ensures { IfOk result (λ message. message ≡ said_near (string_bytes wrong) word.now (map (λ name. name.now) names.now) (string_bytes helps)) }
{
    let meant = nearest(alloc, word, names)?;
    let wrong = wrong_with(alloc, wrong.as_str(), meant)?;
    Ok(said_texts(wrong, helps))
}
