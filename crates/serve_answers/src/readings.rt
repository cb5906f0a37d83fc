//! That there is one reading of programs and of the texts of edits: `specs/Readings.antt`.
ghost use Rattle.std.specs.Prelude.{◌≡◌, ℕ, List};
ghost use Rattle.serve_answers.specs.Readings.{Readings};

use imp_parse::each_text_has_one_answer;

/// Texts are read in one way and no other, so what is said of all readings is said of readings that are there.
pub fn texts_are_read()
    ensures there { Readings }
    ensures only_program { (a b : Readings) (text : List ℕ) →
        a.program.answer text ≡ b.program.answer text }
    ensures only_simple { (a b : Readings) (next : ℕ) (text : List ℕ) →
        (a.simple next).answer text ≡ (b.simple next).answer text }
    ensures only_statements { (a b : Readings) (next : ℕ) (text : List ℕ) →
        (a.statements next).answer text ≡ (b.statements next).answer text }
    ensures only_condition { (a b : Readings) (text : List ℕ) →
        a.condition.answer text ≡ b.condition.answer text }
    ensures only_procedure { (a b : Readings) (next : ℕ) (text : List ℕ) →
        (a.procedure next).answer text ≡ (b.procedure next).answer text }
{
    each_text_has_one_answer();
}
