//! The tokens of a statement.

ghost use Rattle.std.specs.Prelude.{◌<◌, length, IfOk, IfErr};
ghost use Rattle.fortran_lines.specs.Causes.{IfCause};
ghost use Rattle.fortran_tokens.specs.Tokens.{AreTokens, IsRefused};

use crate::cut::pieces_of;
use crate::fault::TokenFault;
use crate::place::{fault_of, placed};
use crate::token::Token;
use caf_base::refusal::Refusal;
use fortran_lines::stmt::Stmt;
use std::alloc::Global;

/// The tokens of a statement, in order. A refusal stands at the first place where no token begins or one breaks a
/// limit; want of memory may come at any time.
pub fn tokens(alloc: Global, stmt: &Stmt) -> Result<Vec<Token>, Refusal<TokenFault>>
    requires { length stmt.now.text < 4294967295 }
    ensures tokens { IfOk result (λ tokens. AreTokens stmt.now tokens.items) }
    ensures refused { IfErr result (λ refusal. IfCause refusal (λ fault. IsRefused stmt.now fault)) }
{
    match pieces_of(alloc, stmt.text.as_slice()) {
        Ok(pieces) => Ok(placed(alloc, pieces.as_slice(), stmt.at.as_slice())?),
        Err(Refusal::NoMemory) => Err(Refusal::NoMemory),
        Err(Refusal::Cause(wrong)) => { Err(Refusal::Cause(fault_of(wrong, stmt.at.as_slice()))) }
    }
}
