// The plain data that every crate above speaks in: lists, bytes, one type of text, the one error for want of memory and the one
// type of why a call gives no answer, and small values that several crates share: a refusal's `Code`, the `Sharing` of a cache mount,
// a `Variable` and its name, the `Variables` of an environment, an `Owner`, a `Mode`, and the limits of the rules.
//
// Contracts see a list as a list, and bytes and text as lists of numbers: `Items<T>`, `Bytes` and `Text` show no capacity and no
// pointer, as std's `Vec` and `String` do. So a struct or an enum made of them is, in a contract, the very data that a definition
// speaks of, and "equal" means that nothing tells the two apart.
//
// It is no library of collections: nothing is searched, sorted or mapped here. What a code, a sharing or a limit leads to is said by the
// crates that use them. Its central definition is the list that each type is seen as (`impl Model`), and `Exact`, the trait of
// values that are compared and copied exactly.
//
// ```
// let name = Text::from_str(alloc, "app")?;
// let twin = name.copy(alloc)?;
// name.same(&twin)                       // true
// ```
#![tactic(auto)]

mod bytes;
mod copying;
mod exact;
mod fault;
pub mod growth;
mod items;
pub mod laws;
pub mod limits;
mod marks;
mod memory;
mod mode;
mod owner;
mod refusal;
mod sharing;
mod text;
mod variable;
mod variable_name;
mod variables;

pub use bytes::Bytes;
pub use copying::with_copy;
pub use exact::Exact;
pub use fault::Fault;
pub use items::{Items, copied_items};
pub use marks::no_marks;
pub use memory::Memory;
pub use mode::Mode;
pub use owner::Owner;
pub use refusal::{Code, Refusal};
pub use sharing::Sharing;
pub use text::Text;
pub use variable::Variable;
pub use variable_name::VariableName;
pub use variables::Variables;
