//! Texts by name and key in a flat form of bytes, which is checked whole once and then borrowed: it
//! takes no memory, and is searched where it lies.
//!
//! All numbers are little-endian. G names, R runs of rows and N rows are in it:
//!
//! ```text
//!  0  8 bytes "ICUTEXT1"
//!  8  u32 G, 12  u32 R, 16  u32 N
//! 20  G entries of 12 bytes: u32 place of the name in the texts, u32 its length,
//!                            u32 number of its run
//!     R entries of 4 bytes:  u32 number of rows before the end of the run;
//!                            the first run begins at row 0
//!     N entries of 12 bytes: u32 place of the key, u32 place of the text,
//!                            u16 length of the key, u16 length of the text
//!     the texts: the rest
//! ```
//!
//! The texts are UTF-8, and each piece that an entry names lies in them and cuts no character.
//! Names rise strictly by their bytes, and so do the keys of each run. Each name's run is there.
//! Ends of runs do not fall, and the last is N.
#![tactic(auto)]

mod check;
mod compare;
mod entry;
mod error;
mod search;
mod texts;
mod write;

pub use error::FlatError;
pub use texts::FlatTexts;
pub use write::to_bytes;
