ghost use Rattle.std.specs.Prelude.{◌≡◌, option_map};
ghost use Rattle.words.specs.Pairs.{pair, label_pair};

use crate::class::class_of;
use crate::quote::QuoteState;
use lines::Escape;

/// A word cut at its first `=`, wherever that is: none where there is no `=`.
///
/// So the words of ENV and ARG are cut, and the items of a mount. The name of `"a=b"=c` is `"a`.
pub fn pair(word: &str) -> Option<(&str, &str)>
    ensures { option_map (λ cut. (cut.0.now, cut.1.now)) result ≡ pair word.now }
{
    word.split_once('=')
}

/// A word cut at its first `=` outside quotes that isn't escaped: none where there is no such `=`.
///
/// So the words of LABEL are cut. The key of `"a=b"=c` is `"a=b"`.
pub fn label_pair(escape: Escape, word: &str) -> Option<(&str, &str)>
    ensures { option_map (λ cut. (cut.0.now, cut.1.now)) result ≡ label_pair escape word.now }
{
    let mut state = QuoteState::Outside;
    for (index, byte) in word.as_bytes().iter().enumerate() {
        let class = class_of(escape, *byte);
        if state.splits(class) {
            return Some((&word[..index], &word[index + 1..]));
        }
        state = state.after(class);
    }
    None
}
