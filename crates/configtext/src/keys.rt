ghost use Rattle.std.specs.Prelude.{◌++◌, ◌∷◌, []};
ghost use Rattle.counted.specs.Gathering.{sink, Says, HasRoom};
ghost use Rattle.json.specs.Print.{quoted};
ghost use Rattle.serde_json.specs.Written.{comma_if};

use counted::{CountedWrite, Gathered, gather};
use quoted::put_quoted;

/// Says a comma where others stand before.
pub(crate) fn put_comma<W: CountedWrite>(output: &mut W, gathered: &mut Gathered, later: bool)
    requires room { HasRoom (W.failures output.old) gathered.old }
    ensures says { Says
        (sink (W.contents output.old) (W.failures output.old) gathered.old)
        (sink (W.contents output.new) (W.failures output.new) gathered.new)
        (comma_if later) }
    ensures room { HasRoom (W.failures output.new) gathered.new }
{
    if later {
        gather(output, gathered, b",");
    }
}

/// Says a key of an object and its colon, behind a comma where others stand before.
pub(crate) fn put_key<W: CountedWrite>(
    output: &mut W,
    gathered: &mut Gathered,
    later: bool,
    key: &str,
)
    requires room { HasRoom (W.failures output.old) gathered.old }
    ensures says { Says
        (sink (W.contents output.old) (W.failures output.old) gathered.old)
        (sink (W.contents output.new) (W.failures output.new) gathered.new)
        (comma_if later ++ (quoted key.now ++ (58 ∷ []))) }
    ensures room { HasRoom (W.failures output.new) gathered.new }
{
    put_comma(output, gathered, later);
    put_quoted(output, gathered, key.as_bytes());
    gather(output, gathered, b":");
}
