//! Tables of likely subtags.

mod extended;
mod language;
mod script_region;

pub use extended::LikelySubtagsExtended;
pub use language::LikelySubtagsForLanguage;
pub use script_region::LikelySubtagsForScriptRegion;
