// The long lists and the tree that the examples ask for.
use std::alloc::{AllocError, Global};

// Empty siblings.
pub fn siblings(alloc: Global, count: u16) -> Result<Vec<u32>, AllocError> {
    let mut records = Vec::new(alloc);
    for _ in 0..count {
        records.extend_from_slice(&[1, 0, 0, 4])?;
    }
    Ok(records)
}

// A chain of records from 0 to an end, each in the next one.
pub fn chain(alloc: Global, count: u16, end: u32) -> Result<Vec<u32>, AllocError> {
    let mut records = Vec::new(alloc);
    for i in 1..=u32::from(count) {
        records.extend_from_slice(&[1, 0, end, 4 * i])?;
    }
    Ok(records)
}

// A top of id 0, and below it so many leaves of id 1 and length 1. A cell's words are kind, id, position, length, first child, count of
// children and next sibling.
pub fn leaves(alloc: Global, count: u16) -> Result<Vec<u32>, AllocError> {
    let count = u32::from(count);
    let mut cells = Vec::new(alloc);
    cells.extend_from_slice(&[1, 0, 0, count + 1, 2, count, 0])?;
    for i in 1..=count {
        let next = if i < count { i + 2 } else { 0 };
        cells.extend_from_slice(&[1, 1, i, 1, 0, 0, next])?;
    }
    Ok(cells)
}
