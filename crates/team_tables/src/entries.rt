//! Teams in a row, the oldest one first, and the members of all of them one behind the other.

ghost use Rattle.std.specs.Prelude.{◌≡◌, ◌+◌, ◌^◌, ◌<◌, ◌≤◌, ◌&&◌, ◌++◌, ◌∷◌, ℕ, [], List, length, map, nat_eq, IfSome, vec_capacity};
ghost use Rattle.std.specs.Option.{option_map};
ghost use Rattle.std.specs.Ordering.{int_eq};
ghost use Rattle.image_acts.specs.Teams.{is_in, team_in, sibling_in};
ghost use Rattle.team_tables.specs.Entries.{AreWithin, IsWithin, formed_by, known_in, members_at, team_at};
ghost use Rattle.team_tables.specs.Tables.{team_with};

/// A team in a row: its number in the run, its parent, the round of the parent that formed it, its team number, and
/// from where to where its members stand.
#[derive(Clone, Copy)]
pub struct Entry {
    pub team: u32,
    pub parent: u64,
    pub round: u64,
    pub number: i64,
    pub start: usize,
    pub end: usize,
}

/// The newest team with this number in the run.
pub(crate) fn newest(entries: &[Entry], team: u64) -> Option<Entry>
    ensures found { (ms : List ℕ) → option_map (team_at ms) result ≡ team_in team (known_in ms entries.now) }
    ensures within { (n : ℕ) → AreWithin n entries.now → IfSome result (IsWithin n) }
{
    let mut left = entries;
    while let Some((entry, older)) = left.split_last() {
        if u64::from(entry.team) == team {
            return Some(*entry);
        }
        left = older;
    }
    None
}

/// Whether two numbers are the same.
pub(crate) fn is_same(v: &i64, w: &i64) -> bool
    ensures { result ≡ int_eq v.now w.now }
{
    *v == *w
}

/// Whether a team was formed beside another one, with this team number.
fn is_sibling(entry: &Entry, of: &Entry, number: &i64) -> bool
    ensures { result ≡ (nat_eq entry.now.parent of.now.parent && (nat_eq entry.now.round of.now.round && int_eq entry.now.number number.now)) }
{
    entry.parent == of.parent && entry.round == of.round && is_same(&entry.number, number)
}

/// The newest team that was formed beside this one, with a team number.
pub(crate) fn newest_sibling(entries: &[Entry], of: &Entry, number: &i64) -> Option<Entry>
    ensures found { (ms : List ℕ) → option_map (team_at ms) result ≡ sibling_in (team_at ms of.now) number.now (known_in ms entries.now) }
    ensures within { (n : ℕ) → AreWithin n entries.now → IfSome result (IsWithin n) }
{
    let mut left = entries;
    while let Some((entry, older)) = left.split_last() {
        if is_sibling(entry, of, number) {
            return Some(*entry);
        }
        left = older;
    }
    None
}

/// The members of a team.
pub(crate) fn members_of<'a>(members: &'a [u32], entry: &Entry) -> &'a [u32]
    requires { IsWithin (length members.now) entry.now }
    ensures value { result.now ≡ members_at members.now entry.now }
    ensures few { length result.now < 2 ^ 33 }
{
    &members[entry.start..entry.end]
}

/// Whether an image is one of these.
pub(crate) fn is_in(members: &[u32], image: u32) -> bool
    ensures { result ≡ is_in image members.now }
{
    let mut left = members;
    while let Some((member, rest)) = left.split_first() {
        if *member == image {
            return true;
        }
        left = rest;
    }
    false
}

/// The number in the run of the newest team that has an image.
pub(crate) fn newest_with(entries: &[Entry], members: &[u32], image: u32) -> Option<u32>
    requires { AreWithin (length members.now) entries.now }
    ensures { result ≡ option_map (λ k. k.team) (team_with image (known_in members.now entries.now)) }
{
    let mut left = entries;
    while let Some((entry, older)) = left.split_last() {
        if is_in(members_of(members, entry), image) {
            return Some(entry.team);
        }
        left = older;
    }
    None
}

/// Puts formed teams behind those that are known, with their parent and the round that formed them. It takes no memory.
pub(crate) fn note(known: &mut Vec<Entry>, formed: &[Entry], parent: u64, round: u64)
    requires { length known.old.items + length formed.now ≤ vec_capacity known.old }
    ensures items { known.new.items ≡ known.old.items ++ map (formed_by parent round) formed.now }
    ensures capacity { vec_capacity known.new ≡ vec_capacity known.old }
{
    for i in 0..formed.len() {
        let entry = formed[i];
        known.push_reserved(Entry {
            parent,
            round,
            ..entry
        });
    }
}
