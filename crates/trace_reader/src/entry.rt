//! The step that a line of the trace shows.

ghost use Rattle.std.specs.Prelude.{◌≡◌, ◌++◌, ◌∷◌, ◌&&◌, ℕ, List, IfOk};
ghost use Rattle.caf_events.specs.declared.ask.Ask.{Ask};
ghost use Rattle.caf_events.specs.declared.event.Entry.{Entry};
ghost use Rattle.caf_events.specs.declared.reply.Reply.{Reply};
ghost use Rattle.caf_events.specs.Asks.{place_of};
ghost use Rattle.trace_text.specs.TraceText.{place_word, ask_text, entry_line, reply_text};
ghost use Rattle.trace_forms.specs.Names.{AreNames};
ghost use Rattle.trace_forms.specs.Ranges.{AskHasText, ReplyHasText, HasText};
ghost use Rattle.trace_forms.specs.Replies.{HasForm};
ghost use Rattle.trace_reader.specs.Checks as checks;
ghost use Rattle.trace_reader.specs.Reading.{ShowTeams, reply_part};
ghost use Rattle.trace_reader.specs.Tables.{team_text_by, shows_team_of, Prints, Shows, ShownBy};

use crate::ask::read_ask;
use crate::checks::shows_entry;
use crate::reply::read_reply;
use crate::teams::Teams;
use caf_base::listing::Text;
use caf_base::place::ImageNo;
use caf_base::refusal::NoMemory;
use caf_events::ask::Ask;
use caf_events::event::{Entry, Event};
use caf_events::exchange::Exchange;
use std::alloc::Global;
use trace_fields::fields::{next_half, next_long};
use trace_fields::names::NameTable;

// The text of the reply in the end of a line, without the sign before it and the line feed.
fn reply_in(end: &[u8]) -> &[u8]
    ensures { (reply : Reply) → end.now ≡ reply_part reply → result.now ≡ reply_text reply }
{
    if end.len() < 3 {
        return end;
    }
    &end[2..end.len() - 1]
}

// The ask with the reply that a text writes.
fn told_with(alloc: Global, ask: &Ask, text: &[u8]) -> Result<Exchange, NoMemory>
    ensures { IfOk result (λ r. (reply : Reply) → ReplyHasText reply → HasForm ask.now reply
        → text.now ≡ reply_text reply → r ≡ record { ask = ask.now; reply = reply }) }
{
    let reply = read_reply(alloc, ask, text)?;
    Exchange::with_reply(alloc, ask, reply)
}

// The ask and the reply of a line, from its object on.
fn read_exchange(alloc: Global, names: &NameTable, text: &[u8]) -> Result<Exchange, NoMemory>
    requires { AreNames names.now }
    ensures { IfOk result (λ r. (of_team : ℕ → List ℕ) (ask : Ask) (reply : Reply) → ShowTeams of_team
        → AskHasText names.now ask → ReplyHasText reply → HasForm ask reply
        → text.now ≡ place_word (place_of ask) ++ (32 ∷ (ask_text of_team names.now ask
        ++ (32 ∷ reply_part reply))) → r ≡ record { ask = ask; reply = reply }) }
{
    let mut rest = text;
    let ask = read_ask(alloc, names, &mut rest)?;
    let told = told_with(alloc, &ask, reply_in(rest));
    drop(ask);
    told
}

// The step that a line shows. Of a line that shows none the answer may be any.
fn read_entry(alloc: Global, names: &NameTable, line: &[u8]) -> Result<Entry, NoMemory>
    requires { AreNames names.now }
    ensures { IfOk result (λ r. (of_team : ℕ → List ℕ) (e : Entry) → ShowTeams of_team → HasText names.now e
        → line.now ≡ entry_line of_team names.now e → r ≡ e) }
{
    let mut rest = line;
    let stamp = next_long(&mut rest);
    let image = next_half(&mut rest);
    let at = next_half(&mut rest);
    let told = read_exchange(alloc, names, rest)?;
    Ok(Entry {
        image: ImageNo(image),
        event: Event::new(told, stamp, at),
    })
}

// Whether the entry can be shown in the form of the file.
fn can_show(alloc: Global, names: &[Text], teams: &Teams, entry: &Entry) -> bool
    ensures { result ≡ (checks.shows_entry names.now entry.now && shows_team_of teams.now entry.now.event.ask) }
{
    shows_entry(alloc, names, entry) && teams.can_show(&entry.event.told().ask(alloc))
}

// Whether the line of the entry is this one; the team numbers that it gives are taken then.
fn prints(
    alloc: Global,
    names: &[Text],
    teams: &mut Teams,
    scratch: &mut Vec<u8>,
    entry: &Entry,
    line: &[u8],
) -> Result<bool, NoMemory>
    ensures { IfOk result (λ yes. Prints yes teams.old names.now entry.now line.now teams.new) }
{
    scratch.clear();
    teams.push(alloc, scratch, names, entry)?;
    Ok(scratch.as_slice() == line)
}

// Whether the entry can be shown, and its line is this one; the team numbers that it gives are taken then.
fn is_shown_by(
    alloc: Global,
    names: &[Text],
    teams: &mut Teams,
    scratch: &mut Vec<u8>,
    entry: &Entry,
    line: &[u8],
) -> Result<bool, NoMemory>
    ensures { IfOk result (λ yes. Shows yes teams.old names.now entry.now line.now teams.new) }
{
    if !can_show(alloc, names, teams, entry) {
        return Ok(false);
    }
    prints(alloc, names, teams, scratch, entry, line)
}

/// The step that a line of the trace shows, none where it shows none. The team numbers that the step gives are taken.
pub(crate) fn entry_of(
    alloc: Global,
    names: &[Text],
    table: &NameTable,
    teams: &mut Teams,
    scratch: &mut Vec<u8>,
    line: &[u8],
) -> Result<Option<Entry>, NoMemory>
    requires names { AreNames names.now }
    requires table { table.now ≡ names.now }
    ensures { IfOk result (λ o. ShowTeams (team_text_by teams.old)
        → ShownBy o teams.old names.now line.now teams.new) }
{
    let entry = read_entry(alloc, table, line)?;
    let shown = is_shown_by(alloc, names, teams, scratch, &entry, line)?;
    if shown {
        Ok(Some(entry))
    } else {
        drop(entry);
        Ok(None)
    }
}
