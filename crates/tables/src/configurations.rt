// `configurations`: a name, ` | `, and a value of JSON. It is read as an image's configuration, from JSON that is owned and from JSON that is lent. The answer is
// the name and the configuration as it is written, or `none`. After another ` | ` may stand a second value: then the answer says whether it is the same
// configuration.

use borrowed::FromLentKeyed;
use imageconfig::Config;
use json::Scratch;
use plain::{Exact, Fault, Memory};
use serde_json::Value;
use std::alloc::Global;
use std::hash::RandomState;
use strict::{NotRead, ReadFault};

pub fn answer(alloc: Global, keys: RandomState, case: &str) -> Result<String, Memory> {
    let (name, values) = case.split_once(" | ").unwrap_or((case, ""));
    let (first, second) = values.split_once(" | ").unwrap_or((values, ""));
    let config = read(alloc, keys, first)?;
    let told = tell(alloc, keys, &config, first, second);
    drop(config);
    Ok(format!(in alloc; "{name}: {}", told?)?)
}

/// What is told of a value that was read as a configuration.
fn tell(
    alloc: Global,
    keys: RandomState,
    config: &Option<Config>,
    first: &str,
    second: &str,
) -> Result<String, Memory> {
    let mut told = written(alloc, config)?;
    let lent = read_lent(alloc, keys, first)?;
    if !is_same(config, lent) {
        told.push_str("; lent, it is another")?;
    }
    if !second.is_empty() {
        let other = read(alloc, keys, second)?;
        let text = if is_same(config, other) {
            "; the same"
        } else {
            "; another"
        };
        told.push_str(text)?;
    }
    Ok(told)
}

fn is_same(config: &Option<Config>, other: Option<Config>) -> bool {
    let is_same = config.same(&other);
    drop(other);
    is_same
}

fn written(alloc: Global, config: &Option<Config>) -> Result<String, Memory> {
    match config {
        Some(config) => {
            let value = config.to_json(alloc)?;
            Ok(value.to_string(alloc)?)
        }
        None => Ok(String::from_str(alloc, "none")?),
    }
}

/// The configuration that a text is, read from JSON that is owned.
fn read(alloc: Global, keys: RandomState, text: &str) -> Result<Option<Config>, Memory> {
    match Value::from_str(alloc, text) {
        Ok(value) => {
            let config = Config::from_json(alloc, keys, &value);
            drop(value);
            found(config)
        }
        Err(error) => {
            if error.is_memory() {
                Err(Memory)
            } else {
                Ok(None)
            }
        }
    }
}

/// The configuration that a text is, read from JSON that is lent.
fn read_lent(alloc: Global, keys: RandomState, text: &str) -> Result<Option<Config>, Memory> {
    let mut scratch = Scratch::new(alloc);
    let config = match borrowed::read(alloc, text, &mut scratch) {
        Ok(value) => {
            let config = Config::from_lent_keyed(alloc, keys, &value);
            drop(value);
            config
        }
        Err(fault) => Err(fault),
    };
    drop(scratch);
    found(config)
}

fn found(config: Result<Config, ReadFault>) -> Result<Option<Config>, Memory> {
    match config {
        Ok(config) => Ok(Some(config)),
        Err(Fault::Because(NotRead)) => Ok(None),
        Err(Fault::Memory) => Err(Memory),
    }
}
