//! The layout of accepted tokens: the blanks before each, and so the print.
//!
//! It is written once, as a walk over the lines ([`lines`]): each line comes with its level and with its cells in the
//! columns of their runs, and gives its pieces, each a token with the gap before it. Loops over lines and pieces
//! compare them with the source ([`is_formatted`]), count their bytes ([`printed_len`]) and write them ([`emit`]). The
//! comparison exists twice, since a loop that calls nothing keeps its registers, and finds a formatted file in place.
//! After a line the walk stores only the depth, the levels by depth and the two runs that the line belongs to. The
//! column of a run is found at its first line: the lines ahead are measured, or, for a comparison, the column is the
//! place of the cell in the source, and the end of the run shows whether that was right. [`fits`] measures only if a
//! bound doesn't show that the print fits.
//!
//! ```text
//! line             level   before =   before #   gaps before its pieces   printed
//! locals {           0                           0 1 0                    locals {
//! a=1# one           1         3         10      2 4 1 3 0                  a    = 1   # one
//! long="x"# two      1         6         12      2 1 1 0 0 1 0              long = "x" # two
//! }                  0                           0 0                      }
//! ```
//!
//! The two lines with an assign cell are a run, and so are the two with a comment at their end. The column of a run is
//! its greatest width, 6 and 12 here, and the gap before a cell goes from the width before it to one blank after the
//! column: 6 - 3 + 1 and 12 - 10 + 1 in the second line. The other gaps come from the indent and the spacing.
#![tactic(auto)]

mod bound;
mod buffer;
pub mod laws;
mod levels;
mod line;
mod lines;
mod measured;
mod print;
mod writer;

pub use bound::fits;
pub use hcl_spacing::space_between;
pub use print::{is_formatted, is_surely_formatted, printed_len, prints_nothing};
pub use writer::emit;
