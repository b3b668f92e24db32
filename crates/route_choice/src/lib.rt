//! Choices of routes: by origin AS, by masks of the AS path, and by patterns of communities.
//!
//! - A mask is a list of steps, and a path a list of positions: each number of a sequence is one, and each set is one
//!   with all its numbers. What it is for a mask to match is a relation, `MaskMatches`: the positions are pieces, one
//!   for each step in turn, that the steps match. `mask_matches` computes it, and the law `masks_match_by_their_steps`
//!   says that both agree.
//! - A path is matched as it is packed (`PathCursor`), without a copy and without an allocation. What stands between
//!   two `*` is taken where it fits first, so each position is compared at most once with each step.
//! - A pattern of communities is about the members of one attribute, which a route has to keep (`attributes`).
#![tactic(auto)]

mod chosen_routes;
mod community;
mod community_text;
mod cursor;
mod laws;
mod mask_text;
mod matching;
mod number;
mod path_mask;

pub use chosen_routes::ChosenRoutes;
pub use community::{Administrator, CommunityPattern, PatternPart, Role};
pub use community_text::read_community;
pub use laws::masks_match_by_their_steps;
pub use mask_text::{MaskError, read_mask};
pub use path_mask::{PathMask, PathStep};
