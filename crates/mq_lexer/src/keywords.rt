//! The reserved words. docs/LANGUAGE.md, "Tokens", lists them.

ghost use Rattle.std.specs.Prelude.{◌≡◌, map, slice_index};
ghost use Rattle.std.specs.Str.{bytes_eq};
ghost use Rattle.mq_lexer.specs.Words as spec;

use crate::terminals::Terminal;
use mq_values::Agg;

/// A reserved word that is no aggregate.
#[derive(Clone, Copy, PartialEq, Eq)]
pub enum Keyword {
    Abs,
    All,
    And,
    Any,
    As,
    Asc,
    Automatic,
    Begin,
    Between,
    By,
    Case,
    Cast,
    Cell,
    Commit,
    Compare,
    Create,
    Cross,
    Cv,
    Date,
    Decimal,
    Decrement,
    Delete,
    Desc,
    Dimension,
    Drop,
    Else,
    End,
    Explain,
    Floor,
    For,
    From,
    Group,
    Ignore,
    In,
    Increment,
    Inner,
    Insert,
    Int,
    Into,
    Is,
    Iterate,
    IterationNumber,
    Join,
    Keep,
    Key,
    Length,
    Load,
    Main,
    Measures,
    Model,
    Nav,
    Not,
    Null,
    Nvl,
    On,
    Or,
    Order,
    Partition,
    Present,
    Presentnnv,
    Presentv,
    Previous,
    Primary,
    Reference,
    Return,
    Rollback,
    Round,
    Rows,
    Rules,
    Scenario,
    Select,
    Sequential,
    Set,
    Show,
    Table,
    Text,
    Then,
    To,
    Under,
    Unique,
    Until,
    Update,
    Updated,
    Upsert,
    Values,
    View,
    When,
    Where,
}

/// The reserved words by their spelling, in the order of the alphabet (docs/LANGUAGE.md, "Tokens").
pub const RESERVED: [(&str, Terminal); 93] = [
    ("ABS", Terminal::Word(Keyword::Abs)),
    ("ALL", Terminal::Word(Keyword::All)),
    ("AND", Terminal::Word(Keyword::And)),
    ("ANY", Terminal::Word(Keyword::Any)),
    ("AS", Terminal::Word(Keyword::As)),
    ("ASC", Terminal::Word(Keyword::Asc)),
    ("AUTOMATIC", Terminal::Word(Keyword::Automatic)),
    ("AVG", Terminal::Aggregate(Agg::Avg)),
    ("BEGIN", Terminal::Word(Keyword::Begin)),
    ("BETWEEN", Terminal::Word(Keyword::Between)),
    ("BY", Terminal::Word(Keyword::By)),
    ("CASE", Terminal::Word(Keyword::Case)),
    ("CAST", Terminal::Word(Keyword::Cast)),
    ("CELL", Terminal::Word(Keyword::Cell)),
    ("COMMIT", Terminal::Word(Keyword::Commit)),
    ("COMPARE", Terminal::Word(Keyword::Compare)),
    ("COUNT", Terminal::Aggregate(Agg::Count)),
    ("CREATE", Terminal::Word(Keyword::Create)),
    ("CROSS", Terminal::Word(Keyword::Cross)),
    ("CV", Terminal::Word(Keyword::Cv)),
    ("DATE", Terminal::Word(Keyword::Date)),
    ("DECIMAL", Terminal::Word(Keyword::Decimal)),
    ("DECREMENT", Terminal::Word(Keyword::Decrement)),
    ("DELETE", Terminal::Word(Keyword::Delete)),
    ("DESC", Terminal::Word(Keyword::Desc)),
    ("DIMENSION", Terminal::Word(Keyword::Dimension)),
    ("DROP", Terminal::Word(Keyword::Drop)),
    ("ELSE", Terminal::Word(Keyword::Else)),
    ("END", Terminal::Word(Keyword::End)),
    ("EXPLAIN", Terminal::Word(Keyword::Explain)),
    ("FLOOR", Terminal::Word(Keyword::Floor)),
    ("FOR", Terminal::Word(Keyword::For)),
    ("FROM", Terminal::Word(Keyword::From)),
    ("GROUP", Terminal::Word(Keyword::Group)),
    ("IGNORE", Terminal::Word(Keyword::Ignore)),
    ("IN", Terminal::Word(Keyword::In)),
    ("INCREMENT", Terminal::Word(Keyword::Increment)),
    ("INNER", Terminal::Word(Keyword::Inner)),
    ("INSERT", Terminal::Word(Keyword::Insert)),
    ("INT", Terminal::Word(Keyword::Int)),
    ("INTO", Terminal::Word(Keyword::Into)),
    ("IS", Terminal::Word(Keyword::Is)),
    ("ITERATE", Terminal::Word(Keyword::Iterate)),
    ("ITERATION_NUMBER", Terminal::Word(Keyword::IterationNumber)),
    ("JOIN", Terminal::Word(Keyword::Join)),
    ("KEEP", Terminal::Word(Keyword::Keep)),
    ("KEY", Terminal::Word(Keyword::Key)),
    ("LENGTH", Terminal::Word(Keyword::Length)),
    ("LOAD", Terminal::Word(Keyword::Load)),
    ("MAIN", Terminal::Word(Keyword::Main)),
    ("MAX", Terminal::Aggregate(Agg::Max)),
    ("MEASURES", Terminal::Word(Keyword::Measures)),
    ("MIN", Terminal::Aggregate(Agg::Min)),
    ("MODEL", Terminal::Word(Keyword::Model)),
    ("NAV", Terminal::Word(Keyword::Nav)),
    ("NOT", Terminal::Word(Keyword::Not)),
    ("NULL", Terminal::Word(Keyword::Null)),
    ("NVL", Terminal::Word(Keyword::Nvl)),
    ("ON", Terminal::Word(Keyword::On)),
    ("OR", Terminal::Word(Keyword::Or)),
    ("ORDER", Terminal::Word(Keyword::Order)),
    ("PARTITION", Terminal::Word(Keyword::Partition)),
    ("PRESENT", Terminal::Word(Keyword::Present)),
    ("PRESENTNNV", Terminal::Word(Keyword::Presentnnv)),
    ("PRESENTV", Terminal::Word(Keyword::Presentv)),
    ("PREVIOUS", Terminal::Word(Keyword::Previous)),
    ("PRIMARY", Terminal::Word(Keyword::Primary)),
    ("REFERENCE", Terminal::Word(Keyword::Reference)),
    ("RETURN", Terminal::Word(Keyword::Return)),
    ("ROLLBACK", Terminal::Word(Keyword::Rollback)),
    ("ROUND", Terminal::Word(Keyword::Round)),
    ("ROWS", Terminal::Word(Keyword::Rows)),
    ("RULES", Terminal::Word(Keyword::Rules)),
    ("SCENARIO", Terminal::Word(Keyword::Scenario)),
    ("SELECT", Terminal::Word(Keyword::Select)),
    ("SEQUENTIAL", Terminal::Word(Keyword::Sequential)),
    ("SET", Terminal::Word(Keyword::Set)),
    ("SHOW", Terminal::Word(Keyword::Show)),
    ("SUM", Terminal::Aggregate(Agg::Sum)),
    ("TABLE", Terminal::Word(Keyword::Table)),
    ("TEXT", Terminal::Word(Keyword::Text)),
    ("THEN", Terminal::Word(Keyword::Then)),
    ("TO", Terminal::Word(Keyword::To)),
    ("UNDER", Terminal::Word(Keyword::Under)),
    ("UNIQUE", Terminal::Word(Keyword::Unique)),
    ("UNTIL", Terminal::Word(Keyword::Until)),
    ("UPDATE", Terminal::Word(Keyword::Update)),
    ("UPDATED", Terminal::Word(Keyword::Updated)),
    ("UPSERT", Terminal::Word(Keyword::Upsert)),
    ("VALUES", Terminal::Word(Keyword::Values)),
    ("VIEW", Terminal::Word(Keyword::View)),
    ("WHEN", Terminal::Word(Keyword::When)),
    ("WHERE", Terminal::Word(Keyword::Where)),
];

static TABLE: [(&str, Terminal); 93] = RESERVED;

type Row = &'static [(&'static str, Terminal)];

// The reserved words that begin with a letter: where they stand in the table.
#[tactic(auto, unfolding(crate::specs::Words::row, crate::specs::Words::reserved))]
fn row(first: u8) -> Row
    ensures { map (λ w. (w.0.now, w.1)) result.now ≡ spec.row first }
{
    match first {
        b'A' => &TABLE[0..8],
        b'B' => &TABLE[8..11],
        b'C' => &TABLE[11..20],
        b'D' => &TABLE[20..27],
        b'E' => &TABLE[27..30],
        b'F' => &TABLE[30..33],
        b'G' => &TABLE[33..34],
        b'I' => &TABLE[34..44],
        b'J' => &TABLE[44..45],
        b'K' => &TABLE[45..47],
        b'L' => &TABLE[47..49],
        b'M' => &TABLE[49..54],
        b'N' => &TABLE[54..58],
        b'O' => &TABLE[58..61],
        b'P' => &TABLE[61..67],
        b'R' => &TABLE[67..73],
        b'S' => &TABLE[73..79],
        b'T' => &TABLE[79..83],
        b'U' => &TABLE[83..89],
        b'V' => &TABLE[89..91],
        b'W' => &TABLE[91..93],
        _ => &[],
    }
}

// Whether a word is spelled so, in capital or small letters.
fn is_spelled(word: &[u8], spelling: &[u8]) -> bool
    ensures { result ≡ bytes_eq spelling.now (spec.folded word.now) }
{
    if word.len() != spelling.len() {
        return false;
    }
    for i in 0..word.len() {
        if word[i].to_ascii_uppercase() != spelling[i] {
            return false;
        }
    }
    true
}

// The first letter as a capital letter.
fn initial(word: &[u8]) -> u8
    ensures { result ≡ slice_index (spec.folded word.now) 0 }
{
    match word {
        [first, ..] => first.to_ascii_uppercase(),
        [] => 0,
    }
}

/// What the reserved word is that is spelled so, in capital or small letters; none where the word is a name
/// (docs/LANGUAGE.md, "Tokens").
pub fn reserved_word(word: &str) -> Option<Terminal>
    ensures { result ≡ spec.reserved_of word.now }
{
    let letters = word.as_bytes();
    for (spelling, class) in row(initial(letters)) {
        if is_spelled(letters, spelling.as_bytes()) {
            return Some(*class);
        }
    }
    None
}
