// A law of plain data, claimed: the contract of a function with an empty body.
ghost use Rattle.std.specs.Prelude.{◌≡◌};
ghost use Rattle.plain.specs.Limits.{most_dockerfile_bytes, most_bundle_bytes, most_lines, most_line_number, most_stages, most_mounts, most_text_bytes, most_components, most_component_bytes, most_images, most_vertices, most_workers};

use crate::limits::{
    MOST_BUNDLE_BYTES, MOST_COMPONENT_BYTES, MOST_COMPONENTS, MOST_DOCKERFILE_BYTES, MOST_IMAGES,
    MOST_LINE_NUMBER, MOST_LINES, MOST_MOUNTS, MOST_STAGES, MOST_TEXT_BYTES, MOST_VERTICES,
    MOST_WORKERS,
};

/// Each limit of the code is the one that contracts name.
#[tactic(auto, unfolding(crate::specs::Limits::most_dockerfile_bytes, crate::specs::Limits::most_bundle_bytes, crate::specs::Limits::most_text_bytes))]
pub fn limits_are_those_of_contracts()
    ensures dockerfile_bytes { MOST_DOCKERFILE_BYTES ≡ most_dockerfile_bytes }
    ensures bundle_bytes { MOST_BUNDLE_BYTES ≡ most_bundle_bytes }
    ensures lines { MOST_LINES ≡ most_lines }
    ensures line_number { MOST_LINE_NUMBER ≡ most_line_number }
    ensures stages { MOST_STAGES ≡ most_stages }
    ensures mounts { MOST_MOUNTS ≡ most_mounts }
    ensures text_bytes { MOST_TEXT_BYTES ≡ most_text_bytes }
    ensures components { MOST_COMPONENTS ≡ most_components }
    ensures component_bytes { MOST_COMPONENT_BYTES ≡ most_component_bytes }
    ensures images { MOST_IMAGES ≡ most_images }
    ensures vertices { MOST_VERTICES ≡ most_vertices }
    ensures workers { MOST_WORKERS ≡ most_workers }
{}
