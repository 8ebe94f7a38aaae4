//! Views of the grid.

use crate::grids::{grid_image, numbers_in, numbers_shown, records_read};
use std::sync::Arc;
use std::test::Fail;

/// The 4,096 nodes are packed in 64 blocks, each of which holds a square of eight by eight nodes. One block is read where a question asks for
/// such a square, and four where it asks for the four nodes in the corner of four of them.
#[test]
fn a_view_reads_the_blocks_that_it_meets(rt: HostRuntime) -> Result<(), Fail> {
    let alloc = rt.alloc();
    let image = Arc::new(alloc, grid_image(alloc)?)?;
    assert_eq!(rt; image.record_count(), 4096);
    assert_eq!(rt; records_read(&image, 0, 7), 64);
    assert_eq!(rt; records_read(&image, 7, 8), 256);
    let shown = numbers_shown(alloc, image.clone()?, 0, 7)?;
    assert_eq!(rt; shown.len(), 64);
    assert!(rt; shown == numbers_in(alloc, 0, 7)?);
    let corner = numbers_shown(alloc, image, 7, 8)?;
    assert!(rt; corner.as_slice() == [456, 457, 520, 521].as_slice());
    Ok(())
}
