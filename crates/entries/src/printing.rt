ghost use Rattle.std.specs.Prelude.{◌≡◌, ◌+◌, ◌<◌, ◌≤◌, [], ◌∷◌, ◌++◌, IsTrue, false, length, take, drop, codes, decimal};
ghost use Rattle.hex.specs.Hex.{encode_lower};
ghost use Rattle.json.specs.Print.{escape};
ghost use Rattle.paths.specs.Path.{text_of, rooted};
ghost use Rattle.counted.specs.Gathering.{sink, Says, HasRoom};
ghost use Rattle.serde_json.specs.Written.{comma_if, compact_text};
ghost use Rattle.trees.specs.declared.entry.Entry.TheVariants.{Directory, File};
ghost use Rattle.trees.specs.Rows.{entry_of, lent_names};
ghost use Rattle.entries.specs.Written.{mode_text, entry_data};
ghost use Rattle.entries.specs.PrivatePrinting.{end_text, entry_text, text_behind, rows_text, rest_text};
ghost use Rattle.entries.specs.PrivateFront.{HoldsNames};

use crate::front::PathFront;
use crate::pieces::{Digits, DirectoryStart, FileStart, UserEnd};
use counted::{CountedWrite, Gathered, gather, gather_piece};
use plain::Text;
use quoted::put_text;
use trees::{LentEntry, Meta, Walk};

/// How many bytes are turned into hexadecimal at once: their digits are the most that a piece has.
const PIECE: usize = 4096;

/// How many entries are said before the next are asked for, where all of a walk's are said.
const AT_ONCE: usize = 4096;

/// Says the entries that a walk has left, each behind a comma but the first of the whole tree, and the bracket that ends the list. It takes no
/// memory.
pub(crate) fn put_rest<W: CountedWrite>(
    output: &mut W,
    gathered: &mut Gathered,
    walk: Walk<'_>,
    later: bool,
)
    requires room { HasRoom (W.failures output.old) gathered.old }
    ensures says { Says
        (sink (W.contents output.old) (W.failures output.old) gathered.old)
        (sink (W.contents output.new) (W.failures output.new) gathered.new)
        (rest_text later walk.entry.left) }
    ensures room { HasRoom (W.failures output.new) gathered.new }
{
    let mut walk = walk;
    let mut later = later;
    'saying: while put_rows(output, gathered, &mut walk, later, AT_ONCE) {
        later = true;
    }
    gather(output, gathered, b"]");
}

/// Says the next entries of a walk, so many at most, each behind a comma but the first of the whole tree, and tells whether there were so many.
/// It takes no memory, and after a failed write it only walks.
pub(crate) fn put_rows<W: CountedWrite>(
    output: &mut W,
    gathered: &mut Gathered,
    walk: &mut Walk<'_>,
    later: bool,
    most: usize,
) -> bool
    requires room { HasRoom (W.failures output.old) gathered.old }
    ensures says { Says
        (sink (W.contents output.old) (W.failures output.old) gathered.old)
        (sink (W.contents output.new) (W.failures output.new) gathered.new)
        (rows_text later (take most walk.old.left)) }
    ensures left { walk.new.left ≡ drop most walk.old.left }
    ensures whole { IsTrue result → most ≤ length walk.old.left }
    ensures ended { result ≡ false → walk.new.left ≡ [] }
    ensures room { HasRoom (W.failures output.new) gathered.new }
{
    let mut front = PathFront::none();
    front.hold(walk.names());
    let mut later = later;
    for done in 0..most {
        let Some(entry) = walk.next() else {
            return false;
        };
        front.go_to(walk.names());
        put_row(output, gathered, later, &front, walk.names(), &entry);
        later = true;
    }
    true
}

/// Says an entry with its path, which has these names, behind a comma where others stand before.
#[tactic(auto, unfolding(crate::specs::PrivatePrinting::entry_text))]
fn put_row<W: CountedWrite>(
    output: &mut W,
    gathered: &mut Gathered,
    later: bool,
    front: &PathFront,
    names: &[&Text],
    entry: &LentEntry<'_>,
)
    requires held { HoldsNames (lent_names names.now) front.now.names front.now }
    requires room { HasRoom (W.failures output.old) gathered.old }
    ensures says { Says
        (sink (W.contents output.old) (W.failures output.old) gathered.old)
        (sink (W.contents output.new) (W.failures output.new) gathered.new)
        (comma_if later ++ entry_text (lent_names names.now) (entry_of entry.now)) }
    ensures room { HasRoom (W.failures output.new) gathered.new }
{
    match entry {
        LentEntry::Directory(meta) => put_directory(output, gathered, later, front, names, *meta),
        LentEntry::File(meta, content) => {
            put_file(
                output,
                gathered,
                later,
                front,
                names,
                *meta,
                content.as_slice(),
            );
        }
    }
}

/// Says a directory with its path, behind a comma where others stand before.
fn put_directory<W: CountedWrite>(
    output: &mut W,
    gathered: &mut Gathered,
    later: bool,
    front: &PathFront,
    names: &[&Text],
    meta: Meta,
)
    requires held { HoldsNames (lent_names names.now) front.now.names front.now }
    requires room { HasRoom (W.failures output.old) gathered.old }
    ensures says { Says
        (sink (W.contents output.old) (W.failures output.old) gathered.old)
        (sink (W.contents output.new) (W.failures output.new) gathered.new)
        (comma_if later ++ compact_text (entry_data (lent_names names.now) (Directory meta))) }
    ensures room { HasRoom (W.failures output.new) gathered.new }
{
    let _mode = meta.mode.bits();
    let start = DirectoryStart {
        later,
        gid: meta.gid,
    };
    gather_piece(output, gathered, start);
    put_end(output, gathered, front, names, meta);
}

/// Says a file with its path, behind a comma where others stand before.
fn put_file<W: CountedWrite>(
    output: &mut W,
    gathered: &mut Gathered,
    later: bool,
    front: &PathFront,
    names: &[&Text],
    meta: Meta,
    bytes: &[u8],
)
    requires held { HoldsNames (lent_names names.now) front.now.names front.now }
    requires room { HasRoom (W.failures output.old) gathered.old }
    ensures says { Says
        (sink (W.contents output.old) (W.failures output.old) gathered.old)
        (sink (W.contents output.new) (W.failures output.new) gathered.new)
        (comma_if later ++ compact_text (entry_data (lent_names names.now) (File meta bytes.now))) }
    ensures room { HasRoom (W.failures output.new) gathered.new }
{
    let _mode = meta.mode.bits();
    let start = FileStart {
        later,
        gid: meta.gid,
    };
    gather_piece(output, gathered, start);
    put_hex(output, gathered, bytes);
    gather(output, gathered, b"\",\"mode\":\"");
    put_end(output, gathered, front, names, meta);
}

/// Says what directories and files end with: the mode's digits, path and user.
fn put_end<W: CountedWrite>(
    output: &mut W,
    gathered: &mut Gathered,
    front: &PathFront,
    names: &[&Text],
    meta: Meta,
)
    requires held { HoldsNames (lent_names names.now) front.now.names front.now }
    requires room { HasRoom (W.failures output.old) gathered.old }
    ensures says { Says
        (sink (W.contents output.old) (W.failures output.old) gathered.old)
        (sink (W.contents output.new) (W.failures output.new) gathered.new)
        (end_text (lent_names names.now) meta) }
    ensures room { HasRoom (W.failures output.new) gathered.new }
{
    gather_piece(output, gathered, front.behind_mode(meta.mode));
    put_names_behind(output, gathered, front.names(), names);
    gather_piece(output, gathered, UserEnd { uid: meta.uid });
}

/// Says what a path's text has behind its first names, so many of them.
fn put_names_behind<W: CountedWrite>(
    output: &mut W,
    gathered: &mut Gathered,
    first: usize,
    names: &[&Text],
)
    requires inside { first ≤ length names.now }
    requires room { HasRoom (W.failures output.old) gathered.old }
    ensures says { Says
        (sink (W.contents output.old) (W.failures output.old) gathered.old)
        (sink (W.contents output.new) (W.failures output.new) gathered.new)
        (text_behind first (lent_names names.now)) }
    ensures room { HasRoom (W.failures output.new) gathered.new }
{
    if names.is_empty() {
        gather(output, gathered, b"/");
    } else {
        put_names(output, gathered, &names[first..]);
    }
}

/// Says bytes in hexadecimal, a piece at a time.
fn put_hex<W: CountedWrite>(output: &mut W, gathered: &mut Gathered, bytes: &[u8])
    requires room { HasRoom (W.failures output.old) gathered.old }
    ensures says { Says
        (sink (W.contents output.old) (W.failures output.old) gathered.old)
        (sink (W.contents output.new) (W.failures output.new) gathered.new)
        (encode_lower bytes.now) }
    ensures room { HasRoom (W.failures output.new) gathered.new }
{
    let mut rest = bytes;
    while !rest.is_empty() {
        let (piece, behind) = rest.split_at(rest.len().min(PIECE));
        gather_piece(output, gathered, Digits { bytes: piece });
        rest = behind;
    }
}

/// Says names, each behind its `/`, as they stand in a JSON string.
fn put_names<W: CountedWrite>(output: &mut W, gathered: &mut Gathered, names: &[&Text])
    requires room { HasRoom (W.failures output.old) gathered.old }
    ensures says { Says
        (sink (W.contents output.old) (W.failures output.old) gathered.old)
        (sink (W.contents output.new) (W.failures output.new) gathered.new)
        (escape (rooted (lent_names names.now))) }
    ensures room { HasRoom (W.failures output.new) gathered.new }
{
    for name in names {
        put_name(output, gathered, name.as_str().as_bytes());
    }
}

/// Says a component behind its `/` as it stands in a JSON string.
fn put_name<W: CountedWrite>(output: &mut W, gathered: &mut Gathered, name: &[u8])
    requires room { HasRoom (W.failures output.old) gathered.old }
    ensures says { Says
        (sink (W.contents output.old) (W.failures output.old) gathered.old)
        (sink (W.contents output.new) (W.failures output.new) gathered.new)
        (47 ∷ escape name.now) }
    ensures room { HasRoom (W.failures output.new) gathered.new }
{
    gather(output, gathered, b"/");
    put_text(output, gathered, name);
}
