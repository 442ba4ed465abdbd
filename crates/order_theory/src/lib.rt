//! The theory of segment order: segments, edges, which segment precedes which, clocks, races and justified reads of a
//! trace.
//! It stands on std alone, and knows no ask, no reply and no statement: it is generic in the entries of a trace.
//! On it stand the crate of segment order over the entries of a run, that of cuts of a trace, and a recorder of races.
//! Its main contracts are `law_prefixes` (which segments precede a segment is told by the entries up to its beginning),
//! `law_forward` (an access in a segment that precedes another access's stands before it), `law_reads` (without a race
//! each read is justified) and `law_flags` (what an image takes by atomic actions, said of the trace at once).
//! What clocks, keys and kept marks say is in the lemmas of proofs/, which proofs cite (docs/build/ORDER.md).
#![tactic(auto)]

pub mod entries;
pub mod order_laws;
