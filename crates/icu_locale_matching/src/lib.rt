//! What to serve: the nearest available locale by the language matching of CLDR, over tables that a caller hands in,
//! and the header Accept-Language.
#![tactic(auto)]

mod candidates;
mod distances;
mod filtering;
mod header;
pub mod laws;
mod leading;
mod limits;
mod macros;
mod matcher;
mod parts;
mod patterns;
mod rank;
mod requests;
mod resolved;
mod search;
mod server;
mod spellings;
mod telling;
mod weights;

pub use candidates::Candidates;
pub use distances::{distance, distance_of};
pub use header::{AcceptLanguage, LentWish};
pub use limits::{FavorSubtag, MatchLimits};
pub use matcher::{LocaleMatcher, Match};
pub use rank::Rank;
pub use resolved::bring_to_resolved;
pub use server::{LocaleServer, ServedLocales};
