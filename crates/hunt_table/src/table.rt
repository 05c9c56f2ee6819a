use crate::header::Header;
use plan_hunt::Row;

/// The table of a hunt: what was asked for, and the endings.
#[derive(Drop)]
pub struct Table {
    pub header: Header,
    pub rows: Vec<Row>,
}
