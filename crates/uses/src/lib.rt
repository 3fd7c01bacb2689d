//! What callers do with the crates of locales: each caller is short, and its contract says what it may rest on.
#![tactic(auto)]

mod answering;
mod canonical;
mod fallback;
mod files;
mod inherits;
mod keying;
mod keys;
mod labels;
mod literal;
mod meaning;
mod menu;
mod negotiation;
mod rows;
mod same_locale;
mod scripts;
mod spelling;
mod switcher;
mod valid;

pub use answering::place_to_answer_in;
pub use canonical::canonicalize_twice;
pub use fallback::{find_form, minimal_form};
pub use files::likely_row;
pub use inherits::inherits_from;
pub use keying::whole_key;
pub use keys::{have_one_key, store_key};
pub use labels::label_of;
pub use literal::german_tables;
pub use meaning::mean_the_same;
pub use menu::{MenuError, MenuLine, menu_line, menu_lines};
pub use negotiation::find_served;
pub use rows::table_with_row;
pub use same_locale::are_same_locale;
pub use scripts::nearest_in_its_script;
pub use spelling::is_spelling;
pub use switcher::serve;
pub use valid::{canonicalize_if_valid, valid_is_canonical, valid_is_whole};
