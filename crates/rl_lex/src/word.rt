//! Reserved words.

ghost use Rattle.std.specs.Prelude.{◌≡◌, drop, map, take};
ghost use Rattle.rl_tree.specs.Bytes.{raised};
ghost use Rattle.rl_grammar.specs.Written.{reserved_words, same_name, word_token};
ghost use Rattle.rl_lex.specs.Kinds.{kind_of_token, kind_among};

use crate::kind::{KindWord, ModeWord, Operator, TokenKind, Way, Worded};
use rl_text::bytes::raised;

/// Whether the letters of a text, raised, are this word.
fn is_word(text: &[u8], word: &[u8]) -> bool
    ensures { result ≡ same_name (map raised text.now) word.now }
{
    if text.len() != word.len() {
        return false;
    }
    for i in 0..text.len() {
        if raised(text[i]) != word[i] {
            return false;
        }
    }
    true
}

/// The reserved words from AND to END; None where the text is none of them.
fn words_a_to_e(text: &[u8]) -> Option<TokenKind>
    ensures { result ≡ kind_among (take 7 (drop 0 reserved_words)) (map raised text.now) }
{
    if is_word(text, b"AND") {
        return Some(TokenKind::Infix(Operator::And));
    }
    if is_word(text, b"BEGIN") {
        return Some(TokenKind::Begin);
    }
    if is_word(text, b"COLLECT") {
        return Some(TokenKind::Does(Way::Collect));
    }
    if is_word(text, b"DO") {
        return Some(TokenKind::Does(Way::Do));
    }
    if is_word(text, b"EACH") {
        return Some(TokenKind::Each);
    }
    if is_word(text, b"ELSE") {
        return Some(TokenKind::Else);
    }
    if is_word(text, b"END") {
        return Some(TokenKind::End);
    }
    None
}

/// The reserved words from EQ to GOTO; None where the text is none of them.
fn words_e_to_g(text: &[u8]) -> Option<TokenKind>
    ensures { result ≡ kind_among (take 7 (drop 7 reserved_words)) (map raised text.now) }
{
    if is_word(text, b"EQ") {
        return Some(TokenKind::Word(Worded::Eq));
    }
    if is_word(text, b"EXPR") {
        return Some(TokenKind::Kind(KindWord::Expr));
    }
    if is_word(text, b"FEXPR") {
        return Some(TokenKind::Kind(KindWord::Fexpr));
    }
    if is_word(text, b"FOR") {
        return Some(TokenKind::For);
    }
    if is_word(text, b"FOREACH") {
        return Some(TokenKind::Foreach);
    }
    if is_word(text, b"GO") {
        return Some(TokenKind::Go);
    }
    if is_word(text, b"GOTO") {
        return Some(TokenKind::Goto);
    }
    None
}

/// The reserved words from IF to MEMBER; None where the text is none of them.
fn words_i_to_m(text: &[u8]) -> Option<TokenKind>
    ensures { result ≡ kind_among (take 7 (drop 14 reserved_words)) (map raised text.now) }
{
    if is_word(text, b"IF") {
        return Some(TokenKind::If);
    }
    if is_word(text, b"IN") {
        return Some(TokenKind::In);
    }
    if is_word(text, b"JOIN") {
        return Some(TokenKind::Does(Way::Join));
    }
    if is_word(text, b"LAMBDA") {
        return Some(TokenKind::Lambda);
    }
    if is_word(text, b"LISP") {
        return Some(TokenKind::Mode(ModeWord::Lisp));
    }
    if is_word(text, b"MACRO") {
        return Some(TokenKind::Kind(KindWord::Macro));
    }
    if is_word(text, b"MEMBER") {
        return Some(TokenKind::Word(Worded::Member));
    }
    None
}

/// The reserved words from MEMQ to RETURN; None where the text is none of them.
fn words_m_to_r(text: &[u8]) -> Option<TokenKind>
    ensures { result ≡ kind_among (take 7 (drop 21 reserved_words)) (map raised text.now) }
{
    if is_word(text, b"MEMQ") {
        return Some(TokenKind::Word(Worded::Memq));
    }
    if is_word(text, b"NEQ") {
        return Some(TokenKind::Infix(Operator::Unequal));
    }
    if is_word(text, b"NOT") {
        return Some(TokenKind::Not);
    }
    if is_word(text, b"OR") {
        return Some(TokenKind::Infix(Operator::Or));
    }
    if is_word(text, b"PROCEDURE") {
        return Some(TokenKind::Procedure);
    }
    if is_word(text, b"REPEAT") {
        return Some(TokenKind::Repeat);
    }
    if is_word(text, b"RETURN") {
        return Some(TokenKind::Return);
    }
    None
}

/// The reserved words from SCALAR to WHILE; None where the text is none of them.
fn words_s_to_w(text: &[u8]) -> Option<TokenKind>
    ensures { result ≡ kind_among (take 7 (drop 28 reserved_words)) (map raised text.now) }
{
    if is_word(text, b"SCALAR") {
        return Some(TokenKind::Scalar);
    }
    if is_word(text, b"SMACRO") {
        return Some(TokenKind::Kind(KindWord::Smacro));
    }
    if is_word(text, b"SYMBOLIC") {
        return Some(TokenKind::Mode(ModeWord::Symbolic));
    }
    if is_word(text, b"THEN") {
        return Some(TokenKind::Then);
    }
    if is_word(text, b"TO") {
        return Some(TokenKind::To);
    }
    if is_word(text, b"UNTIL") {
        return Some(TokenKind::Until);
    }
    if is_word(text, b"WHILE") {
        return Some(TokenKind::While);
    }
    None
}

/// What a name is that is written without `!`: a reserved word in any letters, or an identifier.
pub fn recognize(text: &[u8]) -> TokenKind
    ensures { result ≡ kind_of_token (word_token (map raised text.now)) }
{
    if let Some(kind) = words_a_to_e(text) {
        return kind;
    }
    if let Some(kind) = words_e_to_g(text) {
        return kind;
    }
    if let Some(kind) = words_i_to_m(text) {
        return kind;
    }
    if let Some(kind) = words_m_to_r(text) {
        return kind;
    }
    if let Some(kind) = words_s_to_w(text) {
        return kind;
    }
    TokenKind::Identifier
}
