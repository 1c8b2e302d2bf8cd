//! Where everything is, in pixels.

use crate::columns::Columns;
use crate::rows::Rows;
use gmp_words::By;

/// Where everything is.
#[derive(Drop)]
pub struct Layout {
    /// What has a lane.
    pub by: By,
    pub columns: Columns,
    pub rows: Rows,
}
