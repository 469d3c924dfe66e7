use imageconfig::BoxedConfig;
use plans::Images;
use scopes::{Args, Scope};
use std::hash::RandomState;

/// What is the same for all stages of a file.
#[derive(Clone, Copy)]
pub(crate) struct Given<'a> {
    /// The keys of the hash by which names are found.
    pub(crate) keys: RandomState,
    /// The build arguments.
    pub(crate) args: &'a Args,
    /// The scope of the ARGs before the first FROM.
    pub(crate) outer: &'a Scope,
    /// The images that there are.
    pub(crate) images: &'a Images<BoxedConfig>,
}
