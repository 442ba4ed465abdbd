//! When one run speaks for every order of its images: decided traces, and the induction by which every other core run
//! of the same programs says what a decided one says. It stands on `order_cuts`, `order_axioms` and `core_runs`;
//! definitions and laws alone. `free_replies`, and above it `decided_runs`, which shows the premises of the induction
//! for decided runs, stand on it. Its main contract is `law_images_say_no_more`: where each next step of another run
//! hears the reply that it has in a trace, and an image that said all makes no further step, the images of every core
//! run say fronts of what they say in that trace.
#![tactic(auto)]

pub mod laws;
