//! Asks at the control board, by their words.

ghost use Rattle.std.specs.Prelude.{◌≡◌, ◌++◌, ◌∷◌, ℕ, List, IfOk, codes};
ghost use Rattle.caf_base.specs.declared.place.ImageNo.{ImageNo};
ghost use Rattle.caf_base.specs.declared.place.Place.TheVariants.{Board};
ghost use Rattle.caf_base.specs.declared.place.TeamNo.{TeamNo};
ghost use Rattle.caf_base.specs.declared.value.Kind.{Kind};
ghost use Rattle.caf_base.specs.declared.value.Value.{Value};
ghost use Rattle.caf_events.specs.declared.ask.Ask.{Ask};
ghost use Rattle.caf_events.specs.declared.ask.Ask.TheVariants as asks;
ghost use Rattle.caf_events.specs.declared.round.Arriving.{Arriving};
ghost use Rattle.caf_events.specs.declared.round.GatherOp.{GatherOp};
ghost use Rattle.caf_events.specs.Asks.{place_of};
ghost use Rattle.trace_theory.specs.Entries.{Each};
ghost use Rattle.trace_text.specs.Words.{ask_word};
ghost use Rattle.trace_text.specs.TraceText.{joined, image_text, number_text, values_text, gather_word, kind_word};
ghost use Rattle.trace_text.specs.TraceText.{arriving_text, operands_text};
ghost use Rattle.trace_forms.specs.Names.{AreNames};
ghost use Rattle.trace_forms.specs.Ranges.{IsHalf, IsLong, IsImageNumber, IsValueInRange, ArrivingHasText};
ghost use Rattle.trace_forms.specs.Ranges.{AskHasText};
ghost use Rattle.trace_reader.specs.Reading.{ShowTeams};

use caf_base::place::TeamNo;
use caf_base::refusal::NoMemory;
use caf_events::ask::Ask;
use std::alloc::Global;
use trace_fields::fields::{cut_at, next_field, next_half, next_long, next_signed};
use trace_fields::lists::{images_of, next_values};
use trace_fields::names::NameTable;
use trace_fields::numbers::half_of;
use trace_fields::rounds::next_arriving;
use trace_fields::words::{BoardWord, board_word, gather_named, kind_named};

// The team in the next field; what stands behind a slash is passed over.
fn next_team(rest: &mut &[u8]) -> TeamNo
    ensures { (of_team : ℕ → List ℕ) (team : TeamNo) (behind : List ℕ) → ShowTeams of_team → IsHalf team.0
        → rest.old.now ≡ of_team team.0 ++ (32 ∷ behind) → (result ≡ team) × (rest.new.now ≡ behind) }
{
    let (number, _) = cut_at(next_field(rest), b'/');
    TeamNo(half_of(number))
}

fn arrive_ask(alloc: Global, names: &NameTable, rest: &mut &[u8]) -> Result<Ask, NoMemory>
    requires { AreNames names.now }
    ensures { IfOk result (λ r. (of_team : ℕ → List ℕ) (team : TeamNo) (arriving : Arriving) (more : List ℕ)
        → ShowTeams of_team → IsHalf team.0 → ArrivingHasText names.now arriving
        → rest.old.now ≡ of_team team.0 ++ (arriving_text names.now arriving ++ (32 ∷ (62 ∷ more))) → (r
        ≡ asks.Arrive team arriving) × (rest.new.now ≡ 62 ∷ more)) }
{
    let team = next_team(rest);
    let arriving = next_arriving(alloc, names, rest)?;
    Ok(Ask::Arrive { team, arriving })
}

fn gather_ask(alloc: Global, rest: &mut &[u8]) -> Result<Ask, NoMemory>
    ensures { IfOk result (λ r. (of_team : ℕ → List ℕ) (team : TeamNo) (op : GatherOp) (root : ℕ) (kind : Kind)
        (values : List Value) (behind : List ℕ) → ShowTeams of_team → IsHalf team.0 → IsHalf root
        → Each IsValueInRange values
        → rest.old.now ≡ of_team team.0 ++ (32 ∷ (gather_word op ++ (32 ∷ (number_text root
        ++ (32 ∷ (kind_word kind ++ (32 ∷ (values_text values ++ (32 ∷ behind)))))))))
        → (r ≡ asks.Gather team op root kind values) × (rest.new.now ≡ behind)) }
{
    let team = next_team(rest);
    let op = gather_named(next_field(rest));
    let root = next_half(rest);
    let kind = kind_named(next_field(rest));
    let values = next_values(alloc, rest)?;
    Ok(Ask::Gather {
        team,
        op,
        root,
        kind,
        values,
    })
}

fn pair_ask(alloc: Global, rest: &mut &[u8]) -> Result<Ask, NoMemory>
    ensures { IfOk result (λ r. (images : List ImageNo) (behind : List ℕ) → Each IsImageNumber images
        → rest.old.now ≡ joined (codes ",") image_text images ++ (32 ∷ behind)
        → (r ≡ asks.Pair images) × (rest.new.now ≡ behind)) }
{
    let images = images_of(alloc, next_field(rest), b',')?;
    Ok(Ask::Pair { images })
}

// A team and a number of 64 bits.
fn team_and_round(rest: &mut &[u8]) -> (TeamNo, u64)
    ensures { (of_team : ℕ → List ℕ) (team : TeamNo) (round : ℕ) (behind : List ℕ) → ShowTeams of_team
        → IsHalf team.0 → IsLong round
        → rest.old.now ≡ of_team team.0 ++ (32 ∷ (number_text round ++ (32 ∷ behind)))
        → (result ≡ (team, round)) × (rest.new.now ≡ behind) }
{
    let team = next_team(rest);
    let round = next_long(rest);
    (team, round)
}

fn leave_ask(rest: &mut &[u8]) -> Ask
    ensures { (of_team : ℕ → List ℕ) (team : TeamNo) (round : ℕ) (behind : List ℕ) → ShowTeams of_team
        → IsHalf team.0 → IsLong round
        → rest.old.now ≡ of_team team.0 ++ (32 ∷ (number_text round ++ (32 ∷ behind)))
        → (result ≡ asks.Leave team round) × (rest.new.now ≡ behind) }
{
    let (team, round) = team_and_round(rest);
    Ask::Leave { team, round }
}

fn take_ask(rest: &mut &[u8]) -> Ask
    ensures { (of_team : ℕ → List ℕ) (team : TeamNo) (round : ℕ) (behind : List ℕ) → ShowTeams of_team
        → IsHalf team.0 → IsLong round
        → rest.old.now ≡ of_team team.0 ++ (32 ∷ (number_text round ++ (32 ∷ behind)))
        → (result ≡ asks.Take team round) × (rest.new.now ≡ behind) }
{
    let (team, round) = team_and_round(rest);
    Ask::Take { team, round }
}

fn status_ask(rest: &mut &[u8]) -> Ask
    ensures { (of_team : ℕ → List ℕ) (team : TeamNo) (index : ℕ) (behind : List ℕ) → ShowTeams of_team
        → IsHalf team.0 → IsHalf index
        → rest.old.now ≡ of_team team.0 ++ (32 ∷ (number_text index ++ (32 ∷ behind)))
        → (result ≡ asks.Status team index) × (rest.new.now ≡ behind) }
{
    let team = next_team(rest);
    let index = next_half(rest);
    Ask::Status { team, index }
}

/// The ask at the control board that a word begins.
pub(crate) fn board_ask(
    alloc: Global,
    names: &NameTable,
    word: &[u8],
    rest: &mut &[u8],
) -> Result<Ask, NoMemory>
    requires { AreNames names.now }
    ensures { IfOk result (λ r. (of_team : ℕ → List ℕ) (ask : Ask) (more : List ℕ) → ShowTeams of_team
        → place_of ask ≡ Board → AskHasText names.now ask → word.now ≡ ask_word ask
        → 32 ∷ rest.old.now ≡ operands_text of_team names.now ask ++ (32 ∷ (62 ∷ more)) → (r ≡ ask)
        × (rest.new.now ≡ 62 ∷ more)) }
{
    match board_word(word) {
        BoardWord::Arrive => arrive_ask(alloc, names, rest),
        BoardWord::Leave => Ok(leave_ask(rest)),
        BoardWord::Gather => gather_ask(alloc, rest),
        BoardWord::Take => Ok(take_ask(rest)),
        BoardWord::Pair => pair_ask(alloc, rest),
        BoardWord::Unpair => Ok(Ask::Unpair),
        BoardWord::Enter => Ok(Ask::Enter {
            construct: next_half(rest),
        }),
        BoardWord::Exit => Ok(Ask::Exit {
            construct: next_half(rest),
        }),
        BoardWord::Gone => Ok(Ask::Gone),
        BoardWord::Stop => Ok(Ask::Stop {
            code: next_signed(rest),
        }),
        BoardWord::Failed => Ok(Ask::Failed {
            team: next_team(rest),
        }),
        BoardWord::Stopped => Ok(Ask::Stopped {
            team: next_team(rest),
        }),
        BoardWord::Status => Ok(status_ask(rest)),
    }
}
