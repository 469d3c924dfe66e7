// The configuration of an image: read from JSON, written as JSON, and changed by the instructions of a stage.
//
// It knows no stage and no tree: the crates above choose the instructions, and the scope that each of them is evaluated under. Of
// the image's own file it keeps what the OCI image specification calls the configuration, without layers and history.
//
// The central definitions are `changed`, `due` and `fault` in specs/Steps.antt, what an instruction does to a configuration, which codes are
// due for it, and what is against its texts; `config_in` in specs/Reading.antt and `config_data` in specs/Writing.antt, what a configuration is in JSON.
//
// ```
// let mut config = Config::plain(alloc, keys)?;
// config.apply(alloc, &instruction, &scope)?;             // of `CMD ["a"]`
// let value = config.to_json(alloc)?;                     // .. "config":{"Cmd":["a"]} ..
// let read = Config::from_json(alloc, keys, &value)?;     // the same, with a Cmd that isn't a stage's own
// ```
#![tactic(auto)]

mod boxed;
mod changing;
mod config;
mod environment;
mod exact;
mod fields;
pub mod laws;
mod line;
mod looked;
mod names;
mod ports;
mod reading;
mod rows;
mod values;
mod writing;

pub use boxed::BoxedConfig;
pub use config::Config;
pub use environment::Environment;
pub use names::Names;
pub use ports::names_port;
pub use rows::Rows;
