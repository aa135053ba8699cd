/// Where bytes stand in a pool: the number of their first cell.
#[derive(Clone, Copy, Debug, PartialEq, Eq)]
pub struct Place {
    pub cell: u32,
}
