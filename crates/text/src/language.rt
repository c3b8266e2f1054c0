// What a text has to be: that of a recording, or of a rule alone.
ghost use Rattle.std.specs.Prelude.{ℕ, List};
ghost use Rattle.grammar.specs.Flaws.{shape_of};
ghost use Rattle.grammar.specs.Recording.{Legal, LegalRule, Shaped};

use grammar::Flaw;

pub trait Language {
    // the texts of the language
    ghost legal: { List ℕ → Type 0 };

    // Whether a text is of the language, and if not, what is wrong with it.
    fn check(text: &[u8]) -> Result<(), Flaw>
        ensures { Shaped legal text.now (shape_of result) };
}

// The texts of recordings.
pub struct Recordings;

// The texts of rules.
pub struct Rules;

impl Language for Recordings {
    ghost legal = { Legal };

    fn check(text: &[u8]) -> Result<(), Flaw> {
        grammar::check(text)
    }
}

impl Language for Rules {
    ghost legal = { LegalRule };

    fn check(text: &[u8]) -> Result<(), Flaw> {
        grammar::check_rule(text)
    }
}
