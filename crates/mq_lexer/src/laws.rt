//! Laws of the definitions. The functions do nothing: what they ensure is the law.

ghost use Rattle.std.specs.Prelude.{◌≡◌, ◌+◌, ◌-◌, ◌^◌, ◌<◌, ◌==◌, ◌++◌, ◌∷◌, false, true, not, min, All};
ghost use Rattle.std.specs.Prelude.{List, length, slice_index, filter};
ghost use Rattle.std.specs.List.{flat_map, list_any, count_by};
ghost use Rattle.mq_values.specs.Bytes.{LINE_FEED, MINUS, SLASH, STAR};
ghost use Rattle.mq_lexer.specs.Classes.{class_of};
ghost use Rattle.mq_lexer.specs.Lexemes.{Lexeme};
ghost use Rattle.mq_lexer.specs.Fronts.{Text, a_gap};
ghost use Rattle.mq_lexer.specs.Pieces.{front, is_blank};
ghost use Rattle.mq_lexer.specs.Tokens.{LAST_LINE, Piece, pieces, tokens, is_readable};
ghost use Rattle.mq_lexer.specs.Comments.{IsLineComment, IsBlockComment};
ghost use Rattle.mq_lexer.specs.Spelling.{IsSpelled, IsTokenOf, begins_gap};
ghost use Rattle.mq_lexer.specs.Statements.{statements, is_semicolon};

/// The tokens of a text, and what separates them, give it back.
pub fn pieces_give_the_text_back()
    ensures { (z : Text) → flat_map (λ (p : Piece). p.text) (pieces z) ≡ z }
{}

/// The line of a piece is one more than the count of LF before it, or 2^32 - 1 where it is more.
pub fn lines_are_counted_by_lf()
    ensures { (z : Text) (before : List Piece) (p : Piece) (behind : List Piece) → pieces z ≡ before ++ p ∷ behind →
        p.line ≡ min (1 + count_by (λ b. b == LINE_FEED) (flat_map (λ (p : Piece). p.text) before)) LAST_LINE }
{}

/// At each place of a text that is no blank and begins no comment the token is the longest that is spelled there.
pub fn tokens_are_the_longest()
    ensures { (z : Text) → 0 < length z → begins_gap z ≡ false →
        IsTokenOf z (front z) }
{}

/// `--` begins a comment that ends before the next LF or at the end of the text. `/*` begins one that ends behind
/// the first `*/` behind it; where there is none it begins a Bad token up to the end. A blank is a gap of one byte.
pub fn gaps_are_blanks_and_comments()
    ensures blank { (z : Text) → is_blank (slice_index z 0) ≡ true → front z ≡ a_gap 1 }
    ensures line { (z : Text) → slice_index z 0 ≡ MINUS → slice_index z 1 ≡ MINUS → IsLineComment z (front z) }
    ensures block { (z : Text) → slice_index z 0 ≡ SLASH → slice_index z 1 ≡ STAR → IsBlockComment z (front z) }
{}

/// Each token that is not Bad has the spelling of its sort, with the limits kept: a word, a number, a text or a sign.
pub fn tokens_are_spelled()
    ensures { (z : Text) → All (λ (t : Lexeme). IsSpelled t.sort t.text) (tokens z) }
{}

/// Each token is for the grammar what its sort and spelling say.
pub fn tokens_are_of_their_class()
    ensures { (z : Text) → All (λ (t : Lexeme). t.terminal ≡ class_of t.sort t.text) (tokens z) }
{}

/// No word, number or sign holds a blank.
pub fn readable_tokens_hold_no_blank()
    ensures { (z : Text) → All (λ (t : Lexeme). is_readable t.sort ≡ true → list_any is_blank t.text ≡ false) (tokens z) }
{}

/// The statements hold all tokens in order, but for the `;` signs.
pub fn statements_hold_the_tokens()
    ensures { (ts : List Lexeme) → flat_map (λ s. s.tokens) (statements ts) ≡ filter (λ t. not (is_semicolon t)) ts }
{}
