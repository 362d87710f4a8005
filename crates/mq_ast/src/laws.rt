//! The grammar reads tokens in one way only: laws on functions that do nothing. Two trees of one level that read the
//! tokens from one place, each up to a place where no token stands that goes on at that level, are equal and end at
//! the same place (docs/MEANING.md, "The grammar of the whole language"). And each token of a text is read as what it spells.

ghost use Rattle.std.specs.Prelude.{◌≡◌, List, All};
ghost use Rattle.mq_lexer.specs.declared.sorts.Sort.TheVariants as sort;
ghost use Rattle.mq_lexer.specs.Lexemes.{Lexeme};
ghost use Rattle.mq_lexer.specs.Tokens as lexer;
ghost use Rattle.mq_ast.specs.Spelling.{Reads, tok};
ghost use Rattle.mq_ast.specs.declared.statements.Stmt.{Stmt};
ghost use Rattle.mq_ast.specs.Tokens.{Tok, Bad};
ghost use Rattle.mq_ast.specs.declared.levels.TheConstants as level;
ghost use Rattle.mq_ast.specs.Continuing.{Stops};
ghost use Rattle.mq_ast.specs.OneTree.{OneTree};
ghost use Rattle.mq_ast.specs.GrammarExpression.{Expr, AndE, NotE, TestE, SumE, ProdE, SignE, PrimE};
ghost use Rattle.mq_ast.specs.GrammarQuery.{PlainE};
ghost use Rattle.mq_ast.specs.GrammarModel.{QueryE};
ghost use Rattle.mq_ast.specs.GrammarStatement.{StmtE};

use mq_lexer::{tokens_are_of_their_class, tokens_are_spelled};

/// An expression without an operator, alone or with a sign.
pub fn one_primary()
    ensures primary { OneTree PrimE (Stops level.PRIMARY) }
    ensures signed { OneTree SignE (Stops level.PRIMARY) }
{}

/// A product.
pub fn one_product()
    ensures { OneTree ProdE (Stops level.PRODUCT) }
{}

/// A sum.
pub fn one_sum()
    ensures { OneTree SumE (Stops level.SUM) }
{}

/// A comparison or another test, alone or behind NOT.
pub fn one_test()
    ensures test { OneTree TestE (Stops level.TEST) }
    ensures negated { OneTree NotE (Stops level.TEST) }
{}

/// A chain by AND.
pub fn one_conjunction()
    ensures { OneTree AndE (Stops level.CONJUNCTION) }
{}

/// A whole expression.
pub fn one_expression()
    ensures { OneTree Expr (Stops level.EXPRESSION) }
{}

/// The plain part of a query.
pub fn one_plain()
    ensures { OneTree PlainE (Stops level.PLAIN) }
{}

/// A whole query.
pub fn one_query()
    ensures { OneTree QueryE (Stops level.QUERY) }
{}

/// Two statements that read the same tokens are equal.
pub fn one_statement()
    ensures { (a b : Stmt) (tokens : List Tok) → StmtE a tokens → StmtE b tokens → a ≡ b }
{}

/// Each token of a text is for the grammar what it spells: a word is reserved or a name, a number has the digits as
/// its mantissa, a text has what stands between its quotes, and a sign is in the table of signs. So a token is Bad for
/// the grammar only where it is a Bad token of the text (docs/MEANING.md, "The grammar of the whole language").
pub fn tokens_are_read()
    ensures read { (z : lexer.Text) → All (λ (t : Lexeme). Reads t.sort t.text (tok t.terminal t.text)) (lexer.tokens z) }
    ensures bad { (z : lexer.Text) → All (λ (t : Lexeme). tok t.terminal t.text ≡ Bad → t.sort ≡ sort.Bad) (lexer.tokens z) }
{
    tokens_are_spelled();
    tokens_are_of_their_class()
}
