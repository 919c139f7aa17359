//! The federation as plain data, and what every event does to it.
//!
//! The rules are definitions in `specs/`: the tables of members and coordinators, one step for every
//! event, runs, and what is promised of them. `docs/DEFINITIONS.md` says each in words. Beside the data the code
//! has only what both sorts of nodes share.
//!
//! **What is proved.** Lists of members are computed as defined. Else it holds the definitions of the whole federation.
#![tactic(auto)]

mod coord_state;
mod coord_step;
mod coord_view;
mod happening;
mod log_state;
mod member_state;
mod member_step;
mod member_view;
mod numbers;
mod outcome;
mod session;
mod standing;

pub use coord_state::{CoordState, Entry};
pub use coord_step::CoordStep;
pub use coord_view::CoordView;
pub use happening::Happening;
pub use log_state::LogState;
pub use member_state::{AskedMark, MemberState};
pub use member_step::MemberStep;
pub use member_view::MemberView;
pub use numbers::{first_lacking, has_number, has_part, members_of, numbers_lacking, with_number};
pub use outcome::Outcome;
pub use session::{Decided, Session, Told};
pub use standing::Standing;
