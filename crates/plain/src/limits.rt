// The limits of the rules (own, but where a source is named). What passes one is refused by the crate whose values it bounds; here
// stands the number alone.

/// The most bytes of a Dockerfile.
pub const MOST_DOCKERFILE_BYTES: usize = 1_048_576;

/// The most bytes of a bundle.
pub const MOST_BUNDLE_BYTES: usize = 67_108_864;

/// The most logical lines of a Dockerfile.
pub const MOST_LINES: usize = 4_096;

/// The greatest number of a line, of which the first is 1.
pub const MOST_LINE_NUMBER: u32 = 1_048_576;

/// The most stages of a Dockerfile.
pub const MOST_STAGES: usize = 256;

/// The most mounts of one RUN.
pub const MOST_MOUNTS: usize = 16;

/// The most bytes of a text whose variables were replaced by their values.
pub const MOST_TEXT_BYTES: usize = 1_048_576;

/// The most components of a path.
pub const MOST_COMPONENTS: usize = 64;

/// The most bytes of one component of a path, the limit of Linux's file systems.
pub const MOST_COMPONENT_BYTES: usize = 255;

/// The most different images that the stages of one build name.
pub const MOST_IMAGES: usize = 8_000;

/// The most vertices of a graph.
pub const MOST_VERTICES: usize = 16_384;

/// The most workers of one build.
pub const MOST_WORKERS: u8 = 64;
