//! Who holds a lock variable.

use caf_base::place::ImageNo;

/// Nobody, an image, or nobody since this image failed while it held the lock.
#[derive(Clone, Copy)]
pub enum Holder {
    Free,
    Held(ImageNo),
    LeftBy(ImageNo),
}
