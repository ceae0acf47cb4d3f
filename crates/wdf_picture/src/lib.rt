//! A run as a picture: one page of HTML with an SVG in it, and a script that zooms and searches it.
//!
//! # Choices
//!
//! - **What does the page need besides itself?** Nothing: no other file and no address. Without its script it is the same
//!   picture, and each shape has its trace line as a title.
//! - **How is a shape placed?** From slot to slot, in an SVG of its own that clips its label. So the script moves a shape by
//!   two attributes, and the program writes shapes of all kinds by one function.
//! - **What of large runs?** Past [`MERGED_FROM`] events shapes of a pixel or two are merged into blocks. All shapes are
//!   in the page too, as rows of fields, from which the script makes those that a zoom shows.
//! - **How does text of the trace reach the page?** By `Page::text` of `wdf_page` alone.
//! - **Why is each event as wide as any other?** Between two ticks any number of events may come, and nothing says
//!   how long one takes. So time is a lane of its own, and the ticks are columns.
//! - **Why isn't the page's script in Rattle?** A browser runs JavaScript. It moves and dims what the page already
//!   has, and the page is whole without it. `tools/check_view.py` looks at it in a browser, outside the gate.
#![tactic(auto)]

mod cpus;
mod devices;
mod drawn;
mod lanes;
mod layout;
mod level;
mod page;
mod requests;
mod script;
mod shape;
mod style;
mod waits;

pub use layout::MERGED_FROM;
pub use page::{Told, html};
