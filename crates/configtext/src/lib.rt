// An image's configuration as compact JSON, said piece by piece.
//
// The values of variables and of labels may be far larger than all that holds them, since thousands may share one long text. So they are never
// joined and never copied: `put_config` says them where they stand. All memory that is needed is taken before, by `UnsaidConfig::of`: for
// references to the labels, by which they are put in the order of their keys, and for the texts of ports, volumes and the working directory,
// which are about as long as what the configuration holds of them.
//
// The crate knows no answer and no tree: what stands around a configuration is said by the crates above. What is said is `config_data` of
// `imageconfig`, which says what a configuration is in JSON; how its fields are said is `said_fields` in specs/PrivateFields.antt.
//
// ```
// let unsaid = UnsaidConfig::of(alloc, &config)?;
// put_config(output, gathered, &unsaid);          // {"architecture":"amd64","config":{"Env":["A=1"]}, ..
// ```
#![tactic(auto)]

mod fields;
mod keys;
mod labels;
mod unsaid;

pub use unsaid::{UnsaidConfig, put_config};
