//! The laws of inert steps at the control board.

ghost use Rattle.std.specs.Prelude.{◌≡◌, ◌++◌, ℕ, false, IsTrue, List, [], ◌∷◌};
ghost use Rattle.caf_base.specs.declared.place.TeamNo.{TeamNo};
ghost use Rattle.caf_base.specs.declared.value.Kind.{Kind};
ghost use Rattle.caf_base.specs.declared.value.Value.{Value};
ghost use Rattle.caf_events.specs.declared.ask.Ask.TheVariants.{Arrive, Leave, Gather, Take};
ghost use Rattle.caf_events.specs.declared.reply.Reply.TheVariants.{Round};
ghost use Rattle.caf_events.specs.declared.round.Arriving.{Arriving};
ghost use Rattle.caf_events.specs.declared.round.GatherOp.{GatherOp};
ghost use Rattle.caf_events.specs.declared.event.Entry.{Entry};
ghost use Rattle.object_rules.specs.BoardRules.{board_ready, board_reply};
ghost use Rattle.inert_steps.specs.Inert.{IsInert};
ghost use Rattle.inert_laws.specs.Silent.{is_silent};
ghost use Rattle.inert_laws.specs.InertSteps.{is_inert_step};

/// A departure from a round, from a collective subroutine or from SYNC IMAGES is inert, and so are FAILED_IMAGES,
/// STOPPED_IMAGES and IMAGE_STATUS: no round closes by them, and they change no construct.
pub fn law_departure_is_inert()
    ensures { (n : ℕ) (h : List Entry) (e : Entry) → IsTrue (is_silent e.event.ask) → IsInert board_ready n h e }
{}

/// An arrival at a round of image control statements (ISO/IEC 1539-1:2018, 11.6) that joined it is inert where its own
/// image can't leave that round yet: then the round hasn't closed, and no other round has heard of it.
pub fn law_arrival_is_inert()
    ensures { (n : ℕ) (h : List Entry) (e : Entry) (team : TeamNo) (arriving : Arriving) (round : ℕ)
        → e.event.ask ≡ Arrive team arriving → e.event.reply ≡ Round round → e.event.reply ≡ board_reply n h e.image.0 e.event.ask
        → IsTrue (board_ready n h e.image.0 e.event.ask) → board_ready n (h ++ e ∷ []) e.image.0 (Leave team round) ≡ false → IsInert board_ready n h e }
{}

/// So is the arrival at a collective subroutine (16.6) whose image can't leave it yet.
pub fn law_collective_is_inert()
    ensures { (n : ℕ) (h : List Entry) (e : Entry) (team : TeamNo) (op : GatherOp) (root : ℕ) (kind : Kind) (values : List Value) (round : ℕ)
        → e.event.ask ≡ Gather team op root kind values → e.event.reply ≡ Round round → e.event.reply ≡ board_reply n h e.image.0 e.event.ask
        → IsTrue (board_ready n h e.image.0 e.event.ask) → board_ready n (h ++ e ∷ []) e.image.0 (Take team round) ≡ false → IsInert board_ready n h e }
{}

/// So each step is inert that is told to be so by what the board knows after it.
pub fn law_step_is_inert()
    ensures { (n : ℕ) (h : List Entry) (e : Entry) → IsTrue (is_inert_step n (h ++ e ∷ []) e.image.0 e.event.ask e.event.reply)
        → IsTrue (board_ready n h e.image.0 e.event.ask) → e.event.reply ≡ board_reply n h e.image.0 e.event.ask → IsInert board_ready n h e }
{}
