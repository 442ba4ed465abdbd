//! The end of an image (ISO/IEC 1539-1:2018, 5.3.7, 11.4).

ghost use Rattle.image_code.specs.declared.step.AskStep.TheVariants as asked;
ghost use Rattle.image_asks.specs.Asking.{IsAsking, IsAsked, ask_here};

use crate::operands::number;
use caf_events::ask::Ask;
use image_state::state::ImageState;

/// STOP.
#[tactic(auto, using(crate::proofs::EndAsks::stop_asked))]
pub(crate) fn stop(image: &ImageState) -> Ask
    requires { IsAsking (ask_here image.now asked.Stop) }
    ensures { IsAsked (ask_here image.now asked.Stop) result }
{
    Ask::Stop {
        code: number(image, 0),
    }
}

/// ERROR STOP.
#[tactic(auto, using(crate::proofs::EndAsks::error_stop_asked))]
pub(crate) fn error_stop(image: &ImageState) -> Ask
    requires { IsAsking (ask_here image.now asked.ErrorStop) }
    ensures { IsAsked (ask_here image.now asked.ErrorStop) result }
{
    Ask::ErrorStop {
        code: number(image, 0),
    }
}
