//! A statement's text, and where each byte of it stands.

ghost use Rattle.std.specs.Prelude.{◌≡◌, length};

use caf_base::listing::{Listing, Text};
use caf_base::place::Pos;

/// A statement: its text in one line, with no comment and no continuation, and the place of each byte. A blank that a
/// continuation puts in has the place of the `&`.
#[derive(Drop)]
pub struct Stmt {
    pub text: Text,
    pub at: Listing<Pos>,
    ghost placed: { length text ≡ length at },
}
