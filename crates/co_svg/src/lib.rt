//! Pictures of lines and texts, as texts in Scalable Vector Graphics (W3C, SVG 2).
//!
//! Each function appends one piece of a picture. The text of a picture is well formed, whatever its texts say
//! (`pictures_are_well_formed`).
#![tactic(auto)]

mod laws;
mod shape;
mod text;

pub use laws::pictures_are_well_formed;
pub use shape::{Line, Stroke, Style};
pub use text::{LETTER, WIDEST, append_end, append_front, append_label, append_line};
