// What is wrong with a text that is not legal.
// Stays an enum and no Option, since both are flaws. Of two flaws the greater is the one further on.
#[derive(Clone, Copy, Debug, PartialEq, Eq, PartialOrd, Ord)]
pub enum Flaw {
    // no legal text goes on with the byte at this place
    Wrong(usize),
    // the text ends ahead of its time
    Early,
}
