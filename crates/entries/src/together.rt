ghost use Rattle.std.specs.Prelude.{◌≡◌, ◌+◌, ◌*◌, ◌<◌, ◌≤◌, ◌||◌, ℕ, List, [], true, false, IsTrue, IfOk, IfSome, length, take, drop, nat_lt};
ghost use denote.Param.Send.{IsSync};
ghost use Rattle.std.specs.FinMap.{entries};
ghost use Rattle.counted.specs.Counted.{inner_of, failures_of};
ghost use Rattle.counted.specs.Gathering.{Sink, sink, Says, HasRoom};
ghost use Rattle.serde_json.specs.Written.{compact_text};
ghost use Rattle.trees.specs.Row.{Row};
ghost use Rattle.entries.specs.Written.{tree_data};
ghost use Rattle.entries.specs.PrivatePrinting.{rows_text, rest_text};
ghost use Rattle.entries.specs.PrivateTogether.{text_behind_rows, text_left, IsBlock, IsPast, ArePast, AreBlocks, HavePrinted, PrintsRound};

use crate::printing::{put_rest, put_rows};
use counted::{Counted, CountedWrite, Gathered, finish, gather};
use plain::Memory;
use std::alloc::Global;
use std::marker::Model;
use std::thread::Threads;
use std::{mem, thread};
use trees::{Tree, Walk};

/// How many threads print side by side, while another writes.
const SHARES: usize = 3;

/// How many entries a thread prints before the text is handed on.
const ROWS: usize = 2048;

/// How many entries a round has, but for the last.
const ROUND: usize = SHARES * ROWS;

/// How many rounds there are at most. What a tree has behind them is printed by one thread.
const MOST_ROUNDS: u32 = u32::MAX;

/// What one of several threads prints: of each round's entries those at its place.
#[derive(Drop)]
struct Share<'a> {
    /// It goes through all entries, also those that others print. So all walks stand at the same place between two rounds.
    walk: Walk<'a>,
    /// What it printed in this round.
    block: Block,
    /// Whether there may be entries behind this round.
    more: bool,
}

/// The text of some entries.
#[derive(Drop)]
struct Block {
    text: Vec<u8>,
    /// Whether there was memory for all of it.
    is_whole: bool,
}

/// A tree that is to be said, with all memory that one thread needs for that. Contracts see its entries in path order.
#[derive(Drop)]
pub struct Unsaid<'a> {
    tree: &'a Tree,
    walk: Walk<'a>,
}

impl<'a> Model for Unsaid<'a> {
    ghost use Rattle.std.specs.Prelude.{◌≡◌, List};
    ghost use Rattle.std.specs.FinMap.{entries};
    ghost use Rattle.trees.specs.Row.{Row};
    ghost use Rattle.entries.specs.Row.{rows_code};

    ghost Value = { List Row };

    ghost coded = { rows_code };

    ghost view = { λ u. entries u.tree.now };

    ghost invariant = { λ u. u.walk.left ≡ entries u.tree.now };
}

impl<'a> Unsaid<'a> {
    /// A tree of which nothing was said yet.
    pub fn of(alloc: Global, tree: &'a Tree) -> Result<Unsaid<'a>, Memory>
        ensures { IfOk result (λ unsaid. unsaid ≡ entries tree.now) }
    {
        let walk = tree.walk(alloc)?;
        Ok(Unsaid { tree, walk })
    }

    /// The tree, and a walk that is at its beginning.
    fn into_parts(self) -> (&'a Tree, Walk<'a>)
        ensures tree { entries result.0.now ≡ self.entry }
        ensures walk { result.1.left ≡ entries result.0.now }
    {
        let Unsaid { tree, walk } = self;
        (tree, walk)
    }
}

/// Says the entries of a tree: what `tree_to_json` gives, as compact JSON, and no value and no list in between.
///
/// The entries of a large tree are printed by several threads. They take memory for what they print, and for want of it the rest is printed by
/// one thread, which takes none. So nothing of it fails, and after a failed write nothing more is written.
pub fn put_tree<W: CountedWrite, R: Threads + Sync>(
    alloc: Global,
    rt: &R,
    output: &mut W,
    gathered: &mut Gathered,
    unsaid: Unsaid<'_>,
)
    requires room { HasRoom (W.failures output.old) gathered.old }
    ensures says { Says
        (sink (W.contents output.old) (W.failures output.old) gathered.old)
        (sink (W.contents output.new) (W.failures output.new) gathered.new)
        (compact_text (tree_data unsaid.entry)) }
    ensures room { HasRoom (W.failures output.new) gathered.new }
{
    let (tree, walk) = unsaid.into_parts();
    gather(output, gathered, b"[");
    match shares_of(alloc, tree) {
        Ok(Some(shares)) => put_shares(alloc, rt, output, gathered, shares, walk),
        _ => put_rest(output, gathered, walk, false),
    }
}

/// Shares at the beginning of a tree, if it is large.
fn shares_of<'a>(alloc: Global, tree: &'a Tree) -> Result<Option<[Share<'a>; SHARES]>, Memory>
    ensures { IfOk result (λ found. IfSome found (ArePast (entries tree.now) 0)) }
{
    let mut walk = tree.walk(alloc)?;
    if !skip_rows(&mut walk, ROUND) {
        return Ok(None);
    }
    let first = Share::of(alloc, tree)?;
    let second = Share::of(alloc, tree)?;
    let third = Share::of(alloc, tree)?;
    Ok(Some([first, second, third]))
}

/// Says the entries of a tree and the bracket behind them, given shares and a walk that are at its beginning.
fn put_shares<W: CountedWrite, R: Threads + Sync>(
    alloc: Global,
    rt: &R,
    output: &mut W,
    gathered: &mut Gathered,
    shares: [Share<'_>; SHARES],
    walk: Walk<'_>,
)
    requires shares { ArePast walk.left 0 shares }
    requires room { HasRoom (W.failures output.old) gathered.old }
    ensures says { Says
        (sink (W.contents output.old) (W.failures output.old) gathered.old)
        (sink (W.contents output.new) (W.failures output.new) gathered.new)
        (rest_text false walk.entry.left) }
    ensures room { HasRoom (W.failures output.new) gathered.new }
{
    let mut shares = shares;
    let mut blocks = [Block::none(alloc), Block::none(alloc), Block::none(alloc)];
    match put_rounds(alloc, rt, output, gathered, &mut shares, &mut blocks) {
        None => gather(output, gathered, b"]"),
        Some(rows) => {
            let mut walk = walk;
            skip_rows(&mut walk, rows);
            put_rest(output, gathered, walk, rows > 0);
        }
    }
}

/// Says the entries of a tree, round by round, and prints those of a round while those of the one before are written. Where a share had no
/// memory, or all rounds were gone through, it tells how many were said.
fn put_rounds<W: CountedWrite, R: Threads + Sync>(
    alloc: Global,
    rt: &R,
    output: &mut W,
    gathered: &mut Gathered,
    shares: &mut [Share<'_>],
    blocks: &mut [Block],
) -> Option<usize>
    requires shares { length shares.old ≡ SHARES }
    requires blocks { length blocks.old ≡ SHARES }
    requires room { HasRoom (W.failures output.old) gathered.old }
    ensures says { (rows : List Row) → ArePast rows 0 shares.old → (last : Sink)
        → Says (sink (W.contents output.new) (W.failures output.new) gathered.new) last
        (text_left rows result)
        → Says (sink (W.contents output.old) (W.failures output.old) gathered.old) last (rest_text false rows) }
    ensures room { HasRoom (W.failures output.new) gathered.new }
{
    print_round(alloc, rt, shares, false);
    for round in 0..MOST_ROUNDS {
        exchange(shares, blocks);
        let more = shares[0].more;
        let said = put_and_print(alloc, rt, output, gathered, blocks, shares);
        if said < SHARES {
            return Some(round as usize * ROUND + said * ROWS);
        }
        if !more {
            return None;
        }
    }
    Some(MOST_ROUNDS as usize * ROUND)
}

/// Takes from each share what it printed, and gives it what was said of an earlier round.
fn exchange(shares: &mut [Share<'_>], blocks: &mut [Block])
    requires shares { length shares.old ≡ SHARES }
    requires blocks { length blocks.old ≡ SHARES }
    ensures printed { (rows : List Row) (behind : ℕ) → HavePrinted rows behind shares.old
        → ArePast rows (behind + SHARES * ROWS) shares.new × AreBlocks rows behind blocks.new }
{
    for place in 0..SHARES {
        mem::swap(&mut shares[place].block, &mut blocks[place]);
    }
}

/// Says what was printed in a round while the next is printed, and tells how many blocks were said.
fn put_and_print<W: CountedWrite, R: Threads + Sync>(
    alloc: Global,
    rt: &R,
    output: &mut W,
    gathered: &mut Gathered,
    blocks: &[Block],
    shares: &mut [Share<'_>],
) -> usize
    requires shares { length shares.old ≡ SHARES }
    requires room { HasRoom (W.failures output.old) gathered.old }
    ensures says { (rows : List Row) (behind : ℕ) → AreBlocks rows behind blocks.now → (last : Sink)
        → Says (sink (W.contents output.new) (W.failures output.new) gathered.new) last
        (text_behind_rows rows (behind + result * ROWS))
        → Says (sink (W.contents output.old) (W.failures output.old) gathered.old) last (text_behind_rows rows behind) }
    ensures inside { result ≤ length blocks.now }
    ensures printed { PrintsRound true shares.old shares.new }
    ensures room { HasRoom (W.failures output.new) gathered.new }
{
    let (_, said) = thread::join_mut(
        rt,
        &mut ||
            requires { IsSync R.row × (length shares.now ≡ SHARES) }
            ensures { PrintsRound true shares.entry.now shares.exit.now }
        { print_round(alloc, rt, shares, true) },
        &mut || put_round(output, gathered, blocks),
    );
    said
}

/// Has each share print its entries of the next round.
fn print_round<R: Threads + Sync>(alloc: Global, rt: &R, shares: &mut [Share<'_>], later: bool)
    requires { length shares.old ≡ SHARES }
    ensures { PrintsRound later shares.old shares.new }
{
    thread::for_each_mut(
        rt,
        shares,
        SHARES,
        &|place, share: &mut Share<'_>|
            requires { place < SHARES }
            ensures past { (rows : List Row) (behind : ℕ) → later ≡ nat_lt 0 behind → share.old.walk.left ≡ drop behind rows
                → IsPast rows (behind + SHARES * ROWS) share.new }
            ensures block { (rows : List Row) (behind : ℕ) → later ≡ nat_lt 0 behind → share.old.walk.left ≡ drop behind rows
                → IsBlock rows (behind + place * ROWS) share.new.block }
        { share.print(alloc, place, later) },
    );
}

/// Says what was printed in a round, up to the first block for which there was no memory, and tells how many blocks that are.
fn put_round<W: CountedWrite>(output: &mut W, gathered: &mut Gathered, blocks: &[Block]) -> usize
    requires room { HasRoom (W.failures output.old) gathered.old }
    ensures says { (rows : List Row) (behind : ℕ) → AreBlocks rows behind blocks.now → (last : Sink)
        → Says (sink (W.contents output.new) (W.failures output.new) gathered.new) last
        (text_behind_rows rows (behind + result * ROWS))
        → Says (sink (W.contents output.old) (W.failures output.old) gathered.old) last (text_behind_rows rows behind) }
    ensures inside { result ≤ length blocks.now }
    ensures room { HasRoom (W.failures output.new) gathered.new }
{
    for place in 0..blocks.len() {
        let block = &blocks[place];
        if !block.is_whole {
            return place;
        }
        gather(output, gathered, block.text.as_slice());
    }
    blocks.len()
}

impl<'a> Share<'a> {
    /// A share at the beginning of a tree.
    fn of(alloc: Global, tree: &'a Tree) -> Result<Share<'a>, Memory>
        ensures { IfOk result (IsPast (entries tree.now) 0) }
    {
        let walk = tree.walk(alloc)?;
        Ok(Share {
            walk,
            block: Block::none(alloc),
            more: true,
        })
    }

    /// Prints the entries at a place of the next round, and goes past those of the others.
    fn print(&mut self, alloc: Global, place: usize, later: bool)
        requires { place < SHARES }
        ensures past { (rows : List Row) (behind : ℕ) → later ≡ nat_lt 0 behind → self.old.walk.left ≡ drop behind rows
            → IsPast rows (behind + SHARES * ROWS) self.new }
        ensures block { (rows : List Row) (behind : ℕ) → later ≡ nat_lt 0 behind → self.old.walk.left ≡ drop behind rows
            → IsBlock rows (behind + place * ROWS) self.new.block }
    {
        skip_rows(&mut self.walk, place * ROWS);
        self.block
            .print(alloc, &mut self.walk, is_later(later, place));
        self.more = skip_rows(&mut self.walk, (SHARES - 1 - place) * ROWS);
    }
}

/// Whether entries stand before those at this place of a round.
fn is_later(later: bool, place: usize) -> bool
    ensures { result ≡ (later || nat_lt 0 place) }
{
    later || place > 0
}

impl Block {
    /// No text, and no memory.
    fn none(alloc: Global) -> Block {
        Block {
            text: Vec::new(alloc),
            is_whole: false,
        }
    }

    /// Prints the next entries of a walk, in place of what it had.
    fn print(&mut self, alloc: Global, walk: &mut Walk<'_>, later: bool)
        ensures text { self.new.is_whole ≡ true → self.new.text.items ≡ rows_text later (take ROWS walk.old.left) }
        ensures left { walk.new.left ≡ drop ROWS walk.old.left }
    {
        let mut text = mem::replace(&mut self.text, Vec::new(alloc));
        text.clear();
        let mut output = Counted::new(text);
        self.is_whole = print_rows(alloc, &mut output, walk, later);
        self.text = output.into_inner();
    }
}

/// Prints the next entries of a walk to a writer, and tells whether there was memory for that.
fn print_rows(
    alloc: Global,
    output: &mut Counted<Vec<u8>>,
    walk: &mut Walk<'_>,
    later: bool,
) -> bool
    requires none { failures_of output.old ≡ 0 }
    requires empty { (inner_of output.old).items ≡ [] }
    ensures text { IsTrue result → (inner_of output.new).items ≡ rows_text later (take ROWS walk.old.left) }
    ensures left { walk.new.left ≡ drop ROWS walk.old.left }
{
    match Gathered::new(alloc) {
        Ok(gathered) => {
            let mut gathered = gathered;
            put_rows(output, &mut gathered, walk, later, ROWS);
            finish(output, gathered).is_ok()
        }
        Err(_) => {
            skip_rows(walk, ROWS);
            false
        }
    }
}

/// Goes past the next entries of a walk, so many at most, and tells whether there were so many.
fn skip_rows(walk: &mut Walk<'_>, most: usize) -> bool
    ensures left { walk.new.left ≡ drop most walk.old.left }
    ensures whole { IsTrue result → most ≤ length walk.old.left }
    ensures ended { result ≡ false → walk.new.left ≡ [] }
{
    let mut done = 0;
    while done < most {
        let passed = walk.pass_up_to(most - done);
        if passed == 0 {
            return false;
        }
        done += passed;
    }
    true
}
