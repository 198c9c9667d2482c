// SPDX-License-Identifier: Apache-2.0
//! Why a line of a script was refused, in plain words for people: a reply says it by a number and a name.
#![tactic(auto)]

mod explainer;
mod heard;
mod numbers;
mod reasons;
mod shown;
mod unanswered;
mod verbs;

pub use explainer::Explainer;
pub use heard::{Listener, ReplyPort, ScriptPort};
pub use reasons::Reason;
pub use shown::Shown;
pub use unanswered::{Line, Unanswered};
