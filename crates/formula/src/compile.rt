// From the words of a formula to its table.
ghost use Rattle.std.specs.Prelude.{◌≡◌, ◌<◌, ◌≤◌, length, slice_get, slice_index, Some, None, IfSome, IfNone};
ghost use Rattle.formula.specs.Words.{CompiledTo, BlankBeyond, OneFormula, Placing, Missing};

use crate::node::{MOST, Node, Table};
use crate::word::Word;

// The number of the word behind the subformula that begins at a word, if one begins there.
// Stays an Option: that none begins there is an answer, and no refusal.
fn end_of(ends: &[u8], at: u8) -> Option<u8>
    ensures { result ≡ slice_get ends.now at }
{
    ends.get(usize::from(at)).copied()
}

// The node that has the subformula from `at` on as its part, and the number of the word behind it.
fn with_part<F: Fn(u8) -> Node>(node: F, at: u8, ends: &[u8]) -> Option<(Node, u8)>
    requires { F.pre node at }
    ensures some { IfSome result (λ p. F.post node at p.0 × (slice_get ends.now at ≡ Some p.1)) }
    ensures none { IfNone result (length ends.now ≤ at) }
{
    let end = end_of(ends, at)?;
    Some((node(at), end))
}

// The node that has as its parts the subformula from `at` on and the one behind that, and the number
// of the word behind both.
fn with_parts<F: Fn(u8, u8) -> Node>(node: F, at: u8, ends: &[u8]) -> Option<(Node, u8)>
    requires { F.IsAlwaysCallable node }
    ensures some { IfSome result (λ p. (middle : _) × (slice_get ends.now at ≡ Some middle) × F.post node at middle p.0 × (slice_get ends.now middle ≡ Some p.1)) }
    ensures none { IfNone result (at < length ends.now → length ends.now ≤ slice_index ends.now at) }
{
    let middle = end_of(ends, at)?;
    let end = end_of(ends, middle)?;
    Some((node(at, middle), end))
}

// The node of word i, and the number of the word behind its subformula. None if a part is missing.
// `ends` has that number for each later word.
fn placing(word: Word, i: u8, ends: &[u8]) -> Option<(Node, u8)>
    requires few { length ends.now ≤ 60 }
    requires low { i < length ends.now }
    ensures { elim result [ Some p ↦ Placing i (length ends.now) ends.now word p.0 p.1 | None ↦ Missing i (length ends.now) ends.now word ] }
{
    let next = i + 1;
    match word {
        Word::Eq(x, c) => Some((Node::Eq(x, c), next)),
        Word::Lt(x, c) => Some((Node::Lt(x, c), next)),
        Word::Gt(x, c) => Some((Node::Gt(x, c), next)),
        Word::Mark(k) => Some((Node::Mark(k), next)),
        Word::By(t) => Some((Node::By(t), next)),
        Word::Not => with_part(Node::Not, next, ends),
        Word::Before => with_part(Node::Before, next, ends),
        Word::Once => with_part(Node::Once, next, ends),
        Word::Always => with_part(Node::Always, next, ends),
        Word::And => with_parts(Node::And, next, ends),
        Word::Or => with_parts(Node::Or, next, ends),
        Word::Implies => with_parts(Node::Implies, next, ends),
        Word::Since => with_parts(Node::Since, next, ends),
    }
}

// The table of the formula that the words spell. None if they spell none, or are more than 60.
#[tactic(auto, using(crate::proofs::Views::one_formula))]
pub fn compile(words: &[Word]) -> Option<Table>
    ensures table { CompiledTo words.now result }
    ensures beyond { BlankBeyond result }
    ensures one { OneFormula words.now }
{
    if words.is_empty() || words.len() > MOST {
        return None;
    }
    // Stays two arrays, and none of pairs: the nodes are handed out, and the ends serve here alone.
    let mut nodes = [Node::Mark(0); MOST];
    let mut room = [0; MOST];
    let ends = &mut room[..words.len()];
    for (i, word) in words.iter().enumerate().rev() {
        let (node, end) = placing(*word, i as u8, ends)?;
        nodes[i] = node;
        ends[i] = end;
    }
    let len = words.len() as u8;
    (ends[0] == len).then_some(Table { nodes, len })
}
