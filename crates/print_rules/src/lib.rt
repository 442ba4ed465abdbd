//! Output, judged (ISO/IEC 1539-1:2018, 12.6): the format of PRINT and its items; rules 57 and 58.
//! It stands on `expr_rules` and `format_rules`; the rules of all action statements stand on it.
//! Its main contract: `print::judge_print` gives the judgement that the definition `print_judged` says.
#![tactic(auto)]

pub mod print;
