//! The laws of the console.
ghost use Rattle.console_spec.specs.OneAnswerLaws.{LinesAreComputed, LinesServeOneAnswer, ScriptsServeOneAnswer, ShortFeedsAreRefused, WholeFeedsTakeTheFirst};

/// The law that a console of lawful kinds serves one answer: where all inputs are honest, what is written and what is left of the inputs is
/// a function of the widths of the ports, the sizes, the lines and the inputs, in which the poison word doesn't occur. So it is of each
/// line (what is asked, given and told, and the state after it, which alone has the poison word), of any list of lines, and of a script's.
/// The call does nothing: its contract is the law.
pub fn lawful_consoles_serve_one_answer<M>()
    ensures computed { LinesAreComputed M }
    ensures lines { LinesServeOneAnswer M }
    ensures script { ScriptsServeOneAnswer M }
{}

/// The law that the answer to a feed is exact where its own input is honest, whatever the others are: where fewer octets are left than it
/// asks for it is refused, and nothing is left; and else the channel takes the first ones that are left, and the others are left. The call
/// does nothing.
pub fn honest_feeds_are_exact<M>()
    ensures short { ShortFeedsAreRefused M }
    ensures whole { WholeFeedsTakeTheFirst M }
{}
