//! The grammar: which tokens a tree may stand for, each token marked with whether a level too deep is open at it, one
//! case a form.
//! It stands on `reader_theory`, `fortran_tokens` (signs), `fortran_tree`, `unit_tree` and `caf_base`;
//! `fortran_layout`, `fortran_print` and the readers of the whole language stand on it.
//! It has no code to run. specs/Phrases has the words of phrases, specs/ExpressionGrammar, ActionGrammar,
//! StatementGrammar and ProgramGrammar the grammar; a file is one language over its tokens (`Sources`, with 64 levels),
//! with an end token behind each statement.
//! specs/FileGrammar has the grammar of a file with modules (`UnitSources`), which nothing reads yet.
//! The step from the tokens of `fortran_tokens` to those of this grammar is that of `token_words`.
//! Main contract: `canonical_is_allowed`: the canonical tokens of a tree are among those that the grammar allows for
//! it.
#![tactic(auto)]

pub mod law;
