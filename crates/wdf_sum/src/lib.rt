//! Tables that were written for separate ranges of seeds, added: the table of all their seeds.
//!
//! # Choices
//!
//! - **In which order may the tables come?** In any. Their ranges have to join without a gap, and no seed may be in two of
//!   them: a table that is given twice would count its seeds twice, and one that is missing would be missed by nobody.
//! - **What is a kind?** Any text within a line. So tables of kinds that come later are added too.
//! - **What is checked?** That each line is one that a table has, byte by byte; that the rows of a table count as many seeds as
//!   its last line says; and the ranges. Whether a row names a seed of its range isn't looked at.
//! - **What is a line without a line feed?** No line of a table. So an input that was cut is refused.
#![tactic(auto)]

mod digits;
mod joined;
mod laws;
mod line;
mod refused;
mod sum;
mod tables;

pub use laws::tables_of_tables;
pub use line::{Seeds, TableLine};
pub use refused::{Bad, Why};
pub use sum::{Sum, sum_of};
pub use tables::Tables;
