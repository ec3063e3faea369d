//! Laws of the grammar. A law is the contract of a function that does nothing.
ghost use Rattle.rl_grammar.specs.Laws.{
  CountsTokens,
  FindsNoSource,
  FindsNoToken,
  FindsOneToken,
  FindsToken,
  LooksNoFurther,
  MeansOne,
  ParsesGrammar,
  ParsesWithin,
  RefusesByte,
  ReadsOneSource,
  ReadsSource,
  TokensAreRefusedFirst,
  RefusesSource,
  RefusesWithin,
  TokensAreSlices,
};

use rl_text::laws::{blank_text_has_none, unreadable_at_first_byte, what_is_found_is_spelled};

/// A statement is parsed exactly where the tokens begin with it, and what is left is what follows it.
pub fn parses_grammar()
    ensures { ParsesGrammar }
{}

/// Tokens begin with one statement, which means one thing, or with none.
pub fn means_one()
    ensures { MeansOne }
{}

/// Tokens are refused exactly at the first with which no statement goes on.
pub fn refuses_first()
    ensures { TokensAreRefusedFirst }
{}

/// What is unfinished in a statement is counted once at each of its tokens.
pub fn counts_tokens()
    ensures { CountsTokens }
{}

/// With bounded nesting a statement is parsed exactly where the tokens begin with it and no more than the bound is
/// unfinished at any of its tokens.
pub fn parses_within()
    ensures { ParsesWithin }
{}

/// With bounded nesting tokens are refused exactly at the first with which no statement goes on that is within the bound up
/// to it.
pub fn refuses_within()
    ensures { RefusesWithin }
{}

/// A token is found exactly where the bytes begin with it behind blanks and comments, and what is left is what follows it.
pub fn finds_token()
    ensures { FindsToken }
{
    what_is_found_is_spelled();
}

/// No token is found exactly where nothing but blanks and comments is there.
pub fn finds_no_token()
    ensures { FindsNoToken }
{}

/// Bytes begin with one token, which stands at one place and takes so many of them; or with none.
pub fn finds_one_token()
    ensures { FindsOneToken }
{
    what_is_found_is_spelled();
}

/// A token is the bytes from the place where it stands up to what follows it.
pub fn tokens_are_slices()
    ensures { TokensAreSlices }
{}

/// Bytes are bad exactly at the first of them with which no token goes on, or at their end inside a token.
pub fn refuses_byte()
    ensures { RefusesByte }
{
    what_is_found_is_spelled();
    blank_text_has_none();
    unreadable_at_first_byte();
}

/// A statement is read exactly where the text begins with it, and what is left is what follows it.
pub fn reads_source()
    ensures { ReadsSource }
{
    what_is_found_is_spelled();
}

/// Nothing is left of a text exactly where nothing but blanks and comments is there.
pub fn finds_no_source()
    ensures { FindsNoSource }
{}

/// A text begins with one statement, and it takes so many bytes; or with none.
pub fn reads_one_source()
    ensures { ReadsOneSource }
{
    what_is_found_is_spelled();
}

/// A text is unreadable exactly where no statement goes on: at the first token with which none does, at a byte that has no
/// place in a token, at its end, or past the longest statement.
pub fn refuses_source()
    ensures { RefusesSource }
{
    what_is_found_is_spelled();
    blank_text_has_none();
    unreadable_at_first_byte();
}

/// What stands behind the byte that follows the longest statement does not matter.
pub fn looks_no_further()
    ensures { LooksNoFurther }
{
    what_is_found_is_spelled();
}
