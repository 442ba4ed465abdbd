//! Every order, of reports: the report of a run that speaks for every order shows what each other one shows.
//! It stands on `decided_runs`, whose law says what the images of the other run say, on `order_lines` for the line that
//! tells it, and on the reports of runs of checked programs; it has laws alone, and nothing stands on it.
//! Its main contract is `law_every_report`: where the line of a report is `every order`, each other report of the same
//! program with the same words but for `--order` and `-w` has the same end and the same text.
#![tactic(auto)]

pub mod laws;
