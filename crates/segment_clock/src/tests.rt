//! Each call with ample memory, on counts worked out by hand.

use crate::clock::Clock;
use caf_base::place::ImageNo;
use std::test::Fail;

#[test]
fn counts_rise_and_the_greater_ones_are_taken(rt: HostRuntime) -> Result<(), Fail> {
    let alloc = rt.alloc();
    let mut mine = Clock::new(alloc, 3)?;
    let mut theirs = Clock::new(alloc, 3)?;
    assert!(rt; !mine.covers(ImageNo(1), 0));
    mine.tick(ImageNo(1));
    mine.tick(ImageNo(3));
    mine.tick(ImageNo(3));
    theirs.tick(ImageNo(2));
    theirs.tick(ImageNo(3));
    mine.join(&theirs);
    for (image, count) in [(1u32, 1u64), (2, 1), (3, 2)] {
        assert!(rt; mine.covers(ImageNo(image), count - 1), "image {image}");
        assert!(rt; !mine.covers(ImageNo(image), count), "image {image}");
    }
    mine.set(&theirs);
    assert!(rt; !mine.covers(ImageNo(1), 0));
    assert!(rt; mine.covers(ImageNo(3), 0));
    assert!(rt; !mine.covers(ImageNo(3), 1));
    mine.clear();
    assert!(rt; !mine.covers(ImageNo(3), 0));
    Ok(())
}
