ghost use Rattle.std.specs.Prelude.{◌≡◌, Option, OnOk, OnErr, option_map};
ghost use Rattle.std.specs.FinMap as map;

use expand::Lookup;
use named::NamedRows;
use plain::{Memory, Text};
use std::alloc::Global;
use std::hash::RandomState;
use std::marker::Model;

/// The build arguments: a value for each name that has one.
///
/// Contracts see a finite map from names to values.
#[derive(Drop)]
pub struct Args {
    values: NamedRows<Text>,
}

impl Model for Args {
    ghost use Rattle.scopes.specs.Args.{BuildArguments, build_arguments_code};

    ghost Value = { BuildArguments };

    ghost coded = { build_arguments_code };

    ghost use Rattle.scopes.specs.PrivateArgs.{build_arguments_of};

    ghost view = { build_arguments_of };
}

impl Args {
    /// No build arguments, whose names are found by a hash with these keys. It takes no memory.
    pub fn new(alloc: Global, keys: RandomState) -> Args
        ensures { result ≡ map.empty }
    {
        Args {
            values: NamedRows::new(alloc, keys),
        }
    }

    /// Gives a name a value, in place of the one that it has. Whoever takes a copy of it shares its bytes. After `Memory` the arguments are as they were.
    pub fn set(&mut self, alloc: Global, name: &str, value: &str) -> Result<(), Memory>
        ensures ok { OnOk result (self.new ≡ map.insert self.old name.now value.now) }
        ensures err { OnErr result (self.new ≡ self.old) }
    {
        let name = Text::from_str(alloc, name)?;
        let copied = Text::from_str(alloc, value)?;
        let value = copied.shared(alloc)?;
        self.values.set(name, value)
    }

    /// The value of a name; none where it has none.
    pub fn get(&self, name: &Text) -> Option<&Text>
        ensures { option_map (λ text. text.now) result ≡ map.get self.now name.now }
    {
        self.values.get(name)
    }
}

impl Lookup for Args {
    ghost use Rattle.std.specs.FinMap as map;

    ghost value_of = { map.get };

    fn find(&self, name: &Text) -> Option<&Text> {
        self.get(name)
    }
}
