//! Who is inside a CRITICAL construct.

use caf_base::place::ImageNo;

/// Nobody, an image, or nobody since this image failed while it was inside.
#[derive(Clone, Copy)]
pub enum Inside {
    Nobody,
    Image(ImageNo),
    LeftBy(ImageNo),
}

/// A construct that an image has entered, by its number, and who is inside now.
#[derive(Clone, Copy)]
pub struct Construct {
    pub number: u32,
    pub inside: Inside,
}
