// The content addresses of a graph's operations.
//
// An address is the SHA-256 of an operation's own text, in which its inputs are named by theirs. So an operation is called the same wherever
// it stands. Nothing is assumed of SHA-256: whether two operations share an address is looked up among those that are known. It reads and
// writes no whole graph.
//
// The central definitions are `address_of` and `place_of` in specs/Address.antt.
//
// ```
// let address = address_of(alloc, &operation)?;    // sha256:76552e79..
// if known.place(&address).is_none() {
//     known.push(alloc, address)?;
// }
// ```
#![tactic(auto)]

mod address;
mod addresses;

pub use address::address_of;
pub use addresses::Addresses;
