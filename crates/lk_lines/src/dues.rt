/// The numberings of a file. Numbers of one mean nothing in another.
#[derive(Clone, Copy)]
pub enum Numbering {
    Names,
    Levels,
    Expressions,
    /// The rules of recursors.
    Rules,
    /// The lines of derivations.
    Lines,
}

/// What a field is to be, or what all fields from it on are to be. Numbers have 32 bits, and 64 in
/// lines behind `#TR`.
#[derive(Clone, Copy)]
pub enum Due {
    /// The number of something defined before.
    Known(Numbering),
    /// A number that counts something.
    Number,
    /// A number of 64 bits in each line.
    Long,
    /// A number of any size.
    Literal,
    /// The info of a binder: `#BD`, `#BI`, `#BS` or `#BC`.
    Info,
    /// A reducibility hint: `O`, `A`, or `R` and a number.
    Hint,
    /// `0` or `1`.
    Flag,
    /// A count, and as many numbers of things defined before.
    Counted(Numbering),
    /// Numbers of things defined before, to the end of the line.
    Rest(Numbering),
    /// The raw text behind the third field, which is to be UTF-8.
    Text,
    /// Pairs of hexadecimal digits to the end of the line, together UTF-8.
    Hex,
}
