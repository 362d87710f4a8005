//! Laws of the definitions. The functions do nothing: what they ensure is the law.

ghost use Rattle.std.specs.Prelude.{◌≡◌, ℕ, List};
ghost use Rattle.mq_lexer.specs.Lexemes.{Lexeme};
ghost use Rattle.mq_ir.specs.Lines.{Line};
ghost use Rattle.mq_tool.specs.Loads.{FileMap};
ghost use Rattle.mq_tool.specs.Script.{IsOutput, IsReadAs, Read};

/// The tokens of a statement are read in one way only, and so a script has one output.
pub fn one_output()
    ensures read { (tokens : List Lexeme) (a b : Read) → IsReadAs tokens a → IsReadAs tokens b → a ≡ b }
    ensures output { (files : FileMap) (text : List ℕ) (a b : List Line) → IsOutput files text a → IsOutput files text b → a ≡ b }
{}
