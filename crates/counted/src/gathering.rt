ghost use Rattle.std.specs.Prelude.{◌≡◌, ◌+◌, ◌<◌, ◌≤◌, ℕ, List, Option, [], length, take, IsTrue, ◌↔◌, IfOk, false};
ghost use Rattle.counted.specs.Gathering.{nothing, held, sink, Says, HasRoom, IsWritten};

use crate::{CountedWrite, Device, EdgeFault, write_all};
use plain::{Fault, Memory};
use std::alloc::Global;
use std::marker::Model;

/// How many bytes are gathered before they are written, at most.
const ROOM: usize = 65536;

/// How many bytes a [`Piece`] has, at most.
pub const MOST_OF_PIECE: usize = 8192;

/// A piece of a text that writes itself straight to where the text is gathered, with one test of room for all its parts.
pub trait Piece {
    // What it says.
    ghost text: { Self → List ℕ };

    /// Writes the piece to the front of `room`, and tells how many bytes it has. What stands behind it then is anything.
    fn write(self, room: &mut [u8]) -> usize
        requires { MOST_OF_PIECE ≤ length room.old }
        ensures long { length room.new ≡ length room.old }
        ensures inside { result ≤ length room.new }
        ensures text { take result room.new ≡ text self };
}

/// The bytes of a text that is written in pieces, as far as they aren't written yet. After a failed write no more is written.
///
/// A text is said by calls of [`gather`], and ends by [`finish`], which tells whether a write failed: so what says a part of a text gives no
/// `Result`.
#[derive(Drop)]
pub struct Gathered {
    /// As long as there is room, all the time: so taking in a piece is a copy, and asks for no memory.
    buffer: Vec<u8>,
    /// How many bytes at the front of the buffer are gathered.
    filled: usize,
    failed: bool,
}

impl Model for Gathered {
    ghost use Rattle.std.specs.Prelude.{◌≡◌, ◌≤◌, vec_len, take};
    ghost use Rattle.counted.specs.Gathering.{Gathering, held};
    ghost use Rattle.counted.specs.declared.gathering.TheConstants.{ROOM};

    ghost Value = { Gathering };

    ghost view = { λ g. held (take g.filled g.buffer.items) g.failed };

    ghost invariant = { λ g. (vec_len g.buffer ≡ ROOM) × (g.filled ≤ ROOM) };
}

impl Gathered {
    /// Nothing is gathered. All memory that is ever wanted for what is gathered is taken here.
    pub fn new(alloc: Global) -> Result<Gathered, Memory>
        ensures { IfOk result (λ gathered. gathered ≡ nothing) }
    {
        let mut buffer = Vec::with_capacity(alloc, ROOM)?;
        buffer.resize(ROOM, 0)?;
        Ok(Gathered {
            buffer,
            filled: 0,
            failed: false,
        })
    }

    /// Whether a write failed: what is said from here on isn't written.
    pub fn is_failed(&self) -> bool
        ensures { result ≡ self.now.failed }
    {
        self.failed
    }

    /// Whether there is room for so many more bytes.
    #[inline(always)]
    fn is_room_for(&self, more: usize) -> bool
        ensures { IsTrue result ↔ (length self.now.bytes + more ≤ ROOM) }
    {
        more <= ROOM - self.filled
    }

    /// Takes in bytes behind those that are gathered.
    #[inline(always)]
    fn take_in(&mut self, bytes: &[u8])
        requires { length self.old.bytes + length bytes.now ≤ ROOM }
        ensures says { (contents : Option (List ℕ)) (failures : ℕ)
            → Says (sink contents failures self.old) (sink contents failures self.new) bytes.now }
        ensures failed { self.new.failed ≡ self.old.failed }
    {
        let end = self.filled + bytes.len();
        self.buffer[self.filled..end].copy_from_slice(bytes);
        self.filled = end;
    }

    /// Has a piece written behind the bytes that are gathered.
    #[inline(always)]
    fn take_piece<P: Piece>(&mut self, piece: P)
        requires { length self.old.bytes + MOST_OF_PIECE ≤ ROOM }
        ensures says { (contents : Option (List ℕ)) (failures : ℕ)
            → Says (sink contents failures self.old) (sink contents failures self.new) (P.text piece) }
        ensures failed { self.new.failed ≡ self.old.failed }
    {
        let size = piece.write(&mut self.buffer[self.filled..]);
        self.filled += size;
    }
}

/// Says bytes: they are gathered, and written with those before them where there is no more room. It takes no memory.
///
/// After a failed write it does nothing. The count of failed calls is a machine number, so a caller has to know that there is room for one
/// more, unless one failed.
///
/// It stands in its callers' code, where the copy of a constant piece is a few stores; what is seldom done doesn't.
#[inline(always)]
pub fn gather<W: CountedWrite>(output: &mut W, gathered: &mut Gathered, bytes: &[u8])
    requires room { HasRoom (W.failures output.old) gathered.old }
    ensures says { Says
        (sink (W.contents output.old) (W.failures output.old) gathered.old)
        (sink (W.contents output.new) (W.failures output.new) gathered.new)
        bytes.now }
    ensures room { HasRoom (W.failures output.new) gathered.new }
{
    if gathered.is_room_for(bytes.len()) {
        gathered.take_in(bytes);
    } else {
        gather_after_flush(output, gathered, bytes);
    }
}

/// Says a piece, as [`gather`] says bytes, and has it written where it is gathered.
#[inline(always)]
pub fn gather_piece<W: CountedWrite, P: Piece>(output: &mut W, gathered: &mut Gathered, piece: P)
    requires room { HasRoom (W.failures output.old) gathered.old }
    ensures says { Says
        (sink (W.contents output.old) (W.failures output.old) gathered.old)
        (sink (W.contents output.new) (W.failures output.new) gathered.new)
        (P.text piece) }
    ensures room { HasRoom (W.failures output.new) gathered.new }
{
    make_room(output, gathered);
    gathered.take_piece(piece);
}

/// Writes what is gathered, where there is no room for a piece any more.
#[inline(always)]
fn make_room<W: CountedWrite>(output: &mut W, gathered: &mut Gathered)
    requires room { HasRoom (W.failures output.old) gathered.old }
    ensures says { Says
        (sink (W.contents output.old) (W.failures output.old) gathered.old)
        (sink (W.contents output.new) (W.failures output.new) gathered.new)
        [] }
    ensures short { length gathered.new.bytes + MOST_OF_PIECE ≤ ROOM }
    ensures room { HasRoom (W.failures output.new) gathered.new }
{
    if !gathered.is_room_for(MOST_OF_PIECE) {
        flush(output, gathered);
    }
}

/// Says bytes where what is gathered is written first.
#[inline(never)]
fn gather_after_flush<W: CountedWrite>(output: &mut W, gathered: &mut Gathered, bytes: &[u8])
    requires room { HasRoom (W.failures output.old) gathered.old }
    ensures says { Says
        (sink (W.contents output.old) (W.failures output.old) gathered.old)
        (sink (W.contents output.new) (W.failures output.new) gathered.new)
        bytes.now }
    ensures room { HasRoom (W.failures output.new) gathered.new }
{
    flush(output, gathered);
    if gathered.is_room_for(bytes.len()) {
        gathered.take_in(bytes);
    } else {
        pass(output, gathered, bytes);
    }
}

/// Writes what is gathered, and tells how the text that was said ends: all of it was written, and no call failed; or a call failed, it wasn't
/// tried again, and a beginning of the text was written. It never answers `Memory`, and takes none.
pub fn finish<W: CountedWrite>(output: &mut W, gathered: Gathered) -> Result<(), EdgeFault>
    requires room { HasRoom (W.failures output.old) gathered }
    ensures { (contents : Option (List ℕ)) (failures : ℕ) (text : List ℕ)
        → Says (sink contents failures nothing) (sink (W.contents output.old) (W.failures output.old) gathered) text
        → IsWritten contents failures (W.contents output.new) (W.failures output.new) text result }
{
    let Gathered {
        buffer,
        filled,
        failed,
    } = gathered;
    if failed {
        return Err(Fault::Because(Device));
    }
    write_all(output, &buffer[..filled])
}

/// Writes what is gathered; then nothing is.
#[inline(never)]
fn flush<W: CountedWrite>(output: &mut W, gathered: &mut Gathered)
    requires room { HasRoom (W.failures output.old) gathered.old }
    ensures says { Says
        (sink (W.contents output.old) (W.failures output.old) gathered.old)
        (sink (W.contents output.new) (W.failures output.new) gathered.new)
        [] }
    ensures empty { gathered.new.bytes ≡ [] }
    ensures room { HasRoom (W.failures output.new) gathered.new }
{
    gathered.failed = write_piece(output, gathered.failed, &gathered.buffer[..gathered.filled]);
    gathered.filled = 0;
}

/// Writes bytes past what is gathered, which is nothing.
fn pass<W: CountedWrite>(output: &mut W, gathered: &mut Gathered, bytes: &[u8])
    requires empty { gathered.old.bytes ≡ [] }
    requires room { HasRoom (W.failures output.old) gathered.old }
    ensures says { Says
        (sink (W.contents output.old) (W.failures output.old) gathered.old)
        (sink (W.contents output.new) (W.failures output.new) gathered.new)
        bytes.now }
    ensures room { HasRoom (W.failures output.new) gathered.new }
{
    gathered.failed = write_piece(output, gathered.failed, bytes);
}

/// Writes a piece, unless a write failed before, and tells whether one has failed by now.
fn write_piece<W: CountedWrite>(output: &mut W, failed: bool, piece: &[u8]) -> bool
    requires room { failed ≡ false → W.failures output.old < u64.MAX }
    ensures says { Says
        (sink (W.contents output.old) (W.failures output.old) (held piece.now failed))
        (sink (W.contents output.new) (W.failures output.new) (held [] result))
        [] }
    ensures room { result ≡ false → W.failures output.new < u64.MAX }
{
    if failed {
        return true;
    }
    match write_all(output, piece) {
        Ok(()) => false,
        Err(_) => true,
    }
}
