//! The parts of statements that name teams, images by their indices, or own coarrays: each names what is there, by the
//! test directly before.
//! It stands on `told_walks`, which says what an image was told, and on the meaning of image control statements and of
//! ALLOCATE and DEALLOCATE in `tree_meaning`. It has definitions and laws alone; `told_programs`, which says it of
//! whole programs, stands on it.
//! Its main contracts are `law_parts_name_told` and `law_bodies_allocate`, by which a walk allocates no coarray but
//! those that its acts name.
#![tactic(auto)]

pub mod laws;
