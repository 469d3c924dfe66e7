// Characters that can't be seen.
ghost use Rattle.std.specs.Prelude.{◌≡◌, chars};
ghost use Rattle.std.specs.List.{list_any};
ghost use Rattle.sentences.specs.Unseen.{is_between, is_other_blank, is_mark, is_hidden, is_unseen, has_unseen};

/// Whether a number lies between two others, or is one of them.
fn is_between(low: u32, high: u32, number: u32) -> bool
    ensures { result ≡ is_between low high number }
{
    low <= number && number <= high
}

/// Whether a character looks like a blank, and is none.
#[tactic(auto, unfolding(crate::specs::Unseen::is_other_blank))]
fn is_other_blank(number: u32) -> bool
    ensures { result ≡ is_other_blank number }
{
    number == 0xa0
        || number == 0x1680
        || number == 0x3000
        || number == 0x3164
        || number == 0xffa0
        || is_between(0x2000, 0x200f, number)
}

/// Whether a character has no width, or turns the order of writing.
#[tactic(auto, unfolding(crate::specs::Unseen::is_mark))]
fn is_mark(number: u32) -> bool
    ensures { result ≡ is_mark number }
{
    number == 0xad
        || number == 0x61c
        || number == 0x180e
        || number == 0xfeff
        || is_between(0x2028, 0x202f, number)
        || is_between(0x205f, 0x206f, number)
        || is_between(0xfff9, 0xfffb, number)
}

/// Whether a character that is no control character can't be seen.
fn is_hidden(character: char) -> bool
    ensures { result ≡ is_hidden character }
{
    is_other_blank(character as u32) || is_mark(character as u32)
}

/// Whether a character can't be seen as it stands, or a terminal may obey it.
pub fn is_unseen(character: char) -> bool
    ensures { result ≡ is_unseen character }
{
    (character.is_control() && character != '\t') || is_hidden(character)
}

/// Whether a text has such a character.
pub fn has_unseen(text: &str) -> bool
    ensures { result ≡ has_unseen text.now }
{
    let mut found = false;
    for character in text.chars() {
        found = found || is_unseen(character);
    }
    found
}
