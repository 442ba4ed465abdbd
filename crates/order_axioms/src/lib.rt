//! Segment order of the entries of a run (ISO/IEC 1539-1:2018, 11.6.2): what an ask and its reply are to it, which
//! cells they touch, and of which failed images a status speaks.
//! It stands on `order_theory`, whose laws it gives for these entries, on `object_rules` and on `core_runs`. The
//! recorder of races, the search for the first one and the report of a run stand on it.
//! Its main definitions are `view` and `edges` (specs/Views), `touches` and `accesses` (specs/Touching), and the first
//! race of a trace with what is allowed before it (specs/FirstRaces).
//! Its main contracts are `law_prefixes`, `law_forward` and `law_reads`, the last two of every lawful trace. Traces of
//! small programs are computed in proofs/Tries.
#![tactic(auto)]

pub mod laws;
