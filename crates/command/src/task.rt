ghost use Rattle.std.specs.Prelude.{◌≡◌, option_map};
ghost use Rattle.command.specs.Sources.{misplaced};

use plain::{Items, Text};

/// What the program is asked to do.
#[derive(Drop)]
pub enum Task {
    /// `build`: solve a bundle.
    Build(BuildOptions),
    /// `graph`: write the graph of a bundle.
    Graph(GraphOptions),
    /// `pack`: write the bundle of a folder.
    Pack(PackOptions),
    /// `why`: tell why paths of a bundle's context are kept or left out.
    Why(WhyOptions),
    /// `llb`: write a bundle's graph as a definition of BuildKit's LLB.
    Llb(LlbOptions),
    /// `config`: write the configuration of a bundle's target.
    Config(Source),
    /// `check`: write all faults of a bundle.
    Check(CheckOptions),
    /// `explain`: build a bundle, and write which instruction fails.
    Explain(Source),
}

/// What is chosen of a folder for its bundle.
pub struct Choice {
    /// The Dockerfile's own file, if one is named.
    pub file: Option<Text>,
    /// The bundle's target, if one is named.
    pub target: Option<Text>,
    /// The build arguments, each a name and a value, in the order of the words.
    pub args: Items<(Text, Text)>,
    /// The images, each a name and the file that holds it, in the order of the words.
    pub images: Items<(Text, Text)>,
}

impl Choice {
    /// What is wrong with the first of these options beside a bundle that no folder gives; `None` if none is given.
    pub fn misplaced(&self) -> Option<&'static str>
        ensures { option_map (λ text. text.now) result ≡ misplaced self.now }
    {
        if self.file.is_some() {
            return Some("--file goes with a folder; the Dockerfile of a bundle stands in it");
        }
        if self.target.is_some() {
            return Some("--target goes with a folder; the target of a bundle stands in it");
        }
        if !self.args.is_empty() {
            return Some(
                "--build-arg goes with a folder; the build arguments of a bundle stand in it",
            );
        }
        if !self.images.is_empty() {
            return Some("--image goes with a folder; the images of a bundle stand in it");
        }
        None
    }
}

/// It ends by a call, as `PackOptions` does.
impl Drop for Choice {
    fn drop(self) {
        let Choice {
            file: _,
            target: _,
            args: _,
            images: _,
        } = self;
    }
}

/// What a bundle is taken from.
pub struct Source {
    /// The bundle's file, or a folder, if one is named; else the bundle is on standard input.
    pub place: Option<Text>,
    /// What is chosen of a folder; nothing where the bundle is on standard input.
    pub choice: Choice,
}

/// It ends by a call, as `PackOptions` does.
impl Drop for Source {
    fn drop(self) {
        let Source {
            place: _,
            choice: _,
        } = self;
    }
}

/// What `build` is asked for.
pub struct BuildOptions {
    /// How many workers solve the bundle.
    pub workers: u8,
    pub source: Source,
}

/// It ends by a call, as `PackOptions` does.
impl Drop for BuildOptions {
    fn drop(self) {
        let BuildOptions {
            workers: _,
            source: _,
        } = self;
    }
}

/// What `graph` is asked for.
pub struct GraphOptions {
    pub source: Source,
    /// Whether it is written in the DOT language of Graphviz.
    pub dot: bool,
}

/// It ends by a call, as `PackOptions` does.
impl Drop for GraphOptions {
    fn drop(self) {
        let GraphOptions { source: _, dot: _ } = self;
    }
}

/// What `pack` is asked for.
pub struct PackOptions {
    /// The folder.
    pub folder: Text,
    /// What is chosen of it.
    pub choice: Choice,
    /// Where the bundle is written to in place of standard output, if a file is named.
    pub output: Option<Text>,
    /// Whether what the ignore file leaves out isn't packed.
    pub apply_ignore: bool,
    /// Whether files are packed without their bytes.
    pub names: bool,
}

/// It ends by a call, so that no proof above goes by which of its fields are there at each place where one is let go.
impl Drop for PackOptions {
    fn drop(self) {
        let PackOptions {
            folder: _,
            choice: _,
            output: _,
            apply_ignore: _,
            names: _,
        } = self;
    }
}

/// What `why` is asked for.
pub struct WhyOptions {
    pub source: Source,
    /// The paths that are asked about, in the order of the words.
    pub paths: Items<Text>,
}

/// It ends by a call, as `PackOptions` does.
impl Drop for WhyOptions {
    fn drop(self) {
        let WhyOptions {
            source: _,
            paths: _,
        } = self;
    }
}

/// What `check` is asked for.
pub struct CheckOptions {
    pub source: Source,
    /// Whether each fault is a line of JSON, and not for a person to read.
    pub json: bool,
}

/// It ends by a call, as `PackOptions` does.
impl Drop for CheckOptions {
    fn drop(self) {
        let CheckOptions { source: _, json: _ } = self;
    }
}

/// What `llb` is asked for.
pub struct LlbOptions {
    pub source: Source,
    /// What images are taken of, and what commands run on.
    pub platform: PlatformName,
    /// The network of every command.
    pub network: NetworkName,
    /// What a merge of trees is.
    pub merging: MergeName,
    /// Whether the engine is given only the paths of the context that the graph names.
    pub follow: bool,
    /// A text that no other build with other files has which runs at the same time.
    pub unique: Text,
}

/// It ends by a call, as `PackOptions` does.
impl Drop for LlbOptions {
    fn drop(self) {
        let LlbOptions {
            source: _,
            platform: _,
            network: _,
            merging: _,
            follow: _,
            unique: _,
        } = self;
    }
}

/// A platform by its names.
pub struct PlatformName {
    pub os: Text,
    pub architecture: Text,
    /// Empty where none is named.
    pub variant: Text,
}

/// It ends by a call, as `PackOptions` does.
impl Drop for PlatformName {
    fn drop(self) {
        let PlatformName {
            os: _,
            architecture: _,
            variant: _,
        } = self;
    }
}

/// A network, by the name that the words give it.
#[derive(Clone, Copy)]
pub enum NetworkName {
    /// `default`: what the engine chooses.
    Usual,
    /// `none`.
    Absent,
    /// `host`: that of the machine.
    Host,
}

/// What a merge of trees is, by the name that the words give it.
#[derive(Clone, Copy)]
pub enum MergeName {
    /// `native`: the engine's own merge.
    Native,
    /// `chain`: copies of trees, one onto the other.
    Chain,
}
