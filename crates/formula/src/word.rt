// The words of a formula, each ahead of its parts.
#[derive(Clone, Copy, Debug, PartialEq, Eq)]
pub enum Word {
    Eq(u8, i32),
    Lt(u8, i32),
    Gt(u8, i32),
    Mark(u8),
    By(u8),
    Not,
    Before,
    Once,
    Always,
    And,
    Or,
    Implies,
    Since,
}
