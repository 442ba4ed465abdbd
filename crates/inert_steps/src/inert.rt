//! Objects that tell which of their steps are inert.

ghost use Rattle.std.specs.Prelude.{◌≡◌, List, [], ◌∷◌, ◌++◌, IsTrue};
ghost use Rattle.caf_events.specs.declared.event.Entry.{Entry};
ghost use Rattle.inert_steps.specs.Inert.{IsInert};

use caf_base::place::ImageNo;
use caf_events::event::Event;
use caf_events::object::Object;

/// An object that tells of its last step whether it leaves every other image's asks as ready as they were.
pub trait Inert: Object {
    /// Whether the event that the image made last at this object is known to be inert; false says nothing.
    fn is_inert(&self, image: ImageNo, event: &Event) -> bool
        ensures { IsTrue result → (h : List Entry) → Self.history self.now ≡ h ++ record { image = image; event = event.now } ∷ []
            → IsTrue (Self.ready_after (Self.made self.now) h image.0 event.now.ask) → event.now.reply ≡ Self.reply_after (Self.made self.now) h image.0 event.now.ask
            → IsInert Self.ready_after (Self.made self.now) h (record { image = image; event = event.now }) };
}
