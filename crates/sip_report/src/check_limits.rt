//! What a check holds the targets of a text to.

/// Bounds of a check, as far as they are given.
#[derive(Clone, Copy, Debug)]
pub struct Bounds {
    /// The most milliseconds that the text may take.
    pub time: Option<u32>,
    /// The least number of targets.
    pub targets: Option<u32>,
}

/// What a check holds the targets of a text to.
#[derive(Clone, Copy, Debug)]
pub struct CheckLimits<'a> {
    /// Beyond these bounds the state is WARNING.
    pub warning: Bounds,
    /// Beyond these bounds the state is CRITICAL.
    pub critical: Bounds,
    /// A target without which the state is CRITICAL, as a line shows it.
    pub expected: Option<&'a str>,
}
