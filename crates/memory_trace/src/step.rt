//! One line of a trace.

/// A step. A block goes by its number among those that are taken, in the order of their taking.
#[derive(Clone, Copy, Debug, Drop)]
pub enum Step {
    /// A heap of so many words in place of the one before.
    New(u32),
    /// A block of so many words at a multiple of the second number.
    Take(u32, u32),
    /// The block goes back.
    Give(u32),
    /// The block is moved down, to a multiple of the second number.
    Lower(u32, u32),
}

/// `new WORDS`, `take WORDS ALIGN`, `give BLOCK` or `lower BLOCK ALIGN`.
pub fn parse(line: &str) -> Option<Step> {
    let mut words = line.split_whitespace();
    let name = words.next()?;
    let first = words.next()?.parse::<u32>().ok()?;
    let second = words.next().unwrap_or("4").parse::<u32>().ok()?;
    match name {
        "new" => Some(Step::New(first)),
        "take" => Some(Step::Take(first, second)),
        "give" => Some(Step::Give(first)),
        "lower" => Some(Step::Lower(first, second)),
        _ => None,
    }
}
