//! The words of the command.
ghost use Rattle.std.specs.Prelude.{◌≡◌, ◌↔◌, IsTrue, IfOk, IfErr};
ghost use Rattle.rl_tree.specs.Command.{IsCommand, IsPath, StopsAt, run_word};
ghost use Rattle.rlisp.specs.Texts.{texts_of};

/// The path of the file that the words ask to run, or the number of the word at which they stop being a command.
pub(crate) fn path_of(words: &[Vec<u8>]) -> Result<&[u8], u64>
    ensures path { IfOk result (λ path. IsCommand (texts_of words.now) path.now) }
    ensures stops { IfErr result (λ k. StopsAt (texts_of words.now) k) }
{
    if words.is_empty() {
        return Err(0);
    }
    if !is_run(&words[0]) {
        return Err(0);
    }
    if words.len() == 1 {
        return Err(1);
    }
    if !is_path(&words[1]) {
        return Err(1);
    }
    if words.len() > 2 {
        return Err(2);
    }
    Ok(words[1].as_slice())
}

/// Whether the word is `sl`.
fn is_run(word: &Vec<u8>) -> bool
    ensures { IsTrue result ↔ (word.now.items ≡ run_word) }
{
    word.as_slice() == b"sl".as_slice()
}

/// Whether the word may be a path.
fn is_path(word: &Vec<u8>) -> bool
    ensures { IsTrue result ↔ IsPath word.now.items }
{
    !word.is_empty() && word.len() <= 4096
}
