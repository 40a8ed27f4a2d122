//! What the program answers of texts, as objects of JSON: each says what the lines say, and reads back as itself.
#![tactic(auto)]

mod answering;
mod blank;
mod certificate;
mod headroom;
mod quotation;
mod refusal;

pub use answering::{Told, certificate_object, check_object, headroom_object};
pub use blank::text_or_null;
pub use headroom::headroom_line;
pub use quotation::quote_told;
pub use refusal::refusal_object;
