// The edges of a program: bytes in, bytes out, and a count of the calls that failed.
//
// `CountedRead` and `CountedWrite` are std's `read` and `write` with a count of failed calls, which
// `Counted` makes of any `Read` or `Write`. With the count a contract can say that a device failed only
// where a call of it did; without it "the device failed" would be a claim that nothing could contradict.
//
// `read_all` reads everything up to a limit, and `write_all` writes everything, in order. Each ends at
// the first call that fails: nothing is tried again, since a write that was refused once may have been
// written in part. They keep no buffer of their own, so with a device that keeps nothing back there is nothing to flush; one that
// does, as std's `BufWriter`, is flushed by its owner.
//
// A text that is never held whole is said in pieces: `gather` keeps some bytes back in a `Gathered` and writes them when there is no more room,
// and `finish` writes the rest and tells whether a write failed. A failure is kept there, so calls that say parts of a text give no `Result`.
// A `Piece` of several short parts is written straight to where it is gathered (`gather_piece`).
//
// It is no buffered reader, and no writer of std's, and it knows nothing of what the bytes mean. The central
// definitions are `ReadsFirst`, `AppendsBeginning`, `CountsFault` and `Says`.
//
// ```
// let mut input = Counted::new(rt.stdin());
// let bytes = read_all(alloc, &mut input, limit)?;
// let mut output = Counted::new(rt.stdout());
// write_all(&mut output, bytes.as_slice())?;
//
// let mut gathered = Gathered::new(alloc)?;
// gather(&mut output, &mut gathered, b"one");
// gather(&mut output, &mut gathered, b" line\n");
// finish(&mut output, gathered)?;
// ```
#![tactic(auto)]

mod counting;
mod edges;
mod fault;
mod gathering;

pub use counting::{Counted, CountedRead, CountedWrite};
pub use edges::{read_all, write_all};
pub use fault::{Device, EdgeFault};
pub use gathering::{Gathered, MOST_OF_PIECE, Piece, finish, gather, gather_piece};
