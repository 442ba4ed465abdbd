//! The names of specifiers.

ghost use Rattle.std.specs.Prelude.{◌≡◌};
ghost use Rattle.specifier_rules.specs.Values.{keyword_of};

/// A specifier that image selectors (9.6) or image control statements (11.6) have.
#[derive(Clone, Copy)]
pub enum Keyword {
    Stat,
    AcquiredLock,
    Team,
    TeamNumber,
    NewIndex,
    UntilCount,
}

/// The specifier with this name.
pub fn keyword_named(name: &[u8]) -> Option<Keyword>
    ensures { result ≡ keyword_of name.now }
{
    if name == b"stat".as_slice() {
        Some(Keyword::Stat)
    } else if name == b"acquired_lock".as_slice() {
        Some(Keyword::AcquiredLock)
    } else if name == b"team".as_slice() {
        Some(Keyword::Team)
    } else if name == b"team_number".as_slice() {
        Some(Keyword::TeamNumber)
    } else if name == b"new_index".as_slice() {
        Some(Keyword::NewIndex)
    } else if name == b"until_count".as_slice() {
        Some(Keyword::UntilCount)
    } else {
        None
    }
}
