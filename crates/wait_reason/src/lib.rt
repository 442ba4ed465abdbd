//! For which image another one waits after a trace (ISO/IEC 1539-1:2018, 11.1.6, 11.6, 16.6), read off the trace alone.
//! It stands on `object_rules` and `core_runs`, and asks no board and no memory. `wait_chain`, which computes the chain
//! of those that wait for one another, stands on it.
//! Its main definitions are `WaitsFor` and `IsChain` (specs). Its main contracts are `law_waits` (an image that waits
//! for another one goes on to wait while that one makes no step) and `law_some_waits` (each image that waits does so
//! for an image or for a post).
#![tactic(auto)]

pub mod laws;
