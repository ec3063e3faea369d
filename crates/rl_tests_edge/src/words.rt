//! A fixed number of words.

use rl_words::Words;
use std::test::Fail;

#[test]
fn one_word_is_set(rt: HostRuntime) -> Result<(), Fail> {
    let mut words = Words::new(rt.alloc(), 3)?;
    assert_eq!(rt; words.len(), 3);
    words.set(1, 0xffff_ffff_ffff_ffff);
    assert_eq!(rt; words.get(0), 0);
    assert_eq!(rt; words.get(1), 0xffff_ffff_ffff_ffff);
    assert_eq!(rt; words.get(2), 0);
    Ok(())
}
