//! Names of identifiers, regions, scripts and variants, in the language of a locale.
#![tactic(auto)]

mod chain;
mod errors;
mod language;
pub mod laws;
mod name_chain;
mod options;
mod region;
mod script;
mod shown;
mod subtag_name;
mod variant;

pub use errors::{LanguageIdentifierNameFallbackError, NameWriteError};
pub use language::{
    LanguageIdentifierDisplayName, LanguageIdentifierDisplayNameBorrowed, LanguageNameParts,
    PieceWalk, Qualifiers,
};
pub use name_chain::NameChain;
pub use options::{DisplayNamesPreferences, LanguageDisplay, LanguageIdentifierDisplayNameOptions};
pub use region::{RegionDisplayName, RegionDisplayNameBorrowed};
pub use script::{ScriptDisplayName, ScriptDisplayNameBorrowed};
pub use shown::LentPiece;
pub use subtag_name::{SubtagName, SubtagNameBorrowed};
pub use variant::{VariantDisplayName, VariantDisplayNameBorrowed};
