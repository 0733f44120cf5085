// What a line gives.
use crate::line::Line;
use table::{LogicalPartition, MBR};

// The table with the line's alignment, geometry, count and D.
pub fn table(l: Line<'_>, read: MBR) -> MBR {
    MBR {
        align: l.number(1),
        cylinders: l.number(2),
        heads: l.number(3),
        sectors: l.number(4),
        count: l.number(5),
        disk_size: l.number(6),
        ..read
    }
}

// What is before the last `n` bytes of X, and those. Where X has fewer, nothing is before it.
pub fn halves(n: usize, x: &[u8]) -> (&[u8], &[u8]) {
    x.split_at(x.len().saturating_sub(n))
}

// The logical partition at a place from 0 on, empty past the last.
pub fn logical(t: &MBR, i: usize) -> LogicalPartition {
    match t.logical_partitions.get(i) {
        Some(l) => *l,
        None => LogicalPartition::empty(),
    }
}
