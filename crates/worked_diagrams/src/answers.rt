//! Answers that come back, and answers that are removed.

use bdd_cache::Answers;
use std::test::Fail;

#[test]
fn an_answer_comes_back_until_it_is_removed(rt: HostRuntime) -> Result<(), Fail> {
    let mut answers = Answers::make(rt.alloc())?;
    answers.put(1, 2, 3, 4, 5);
    answers.keep_only(&[true, true, true, true, true, true]);
    assert_eq!(rt; answers.get(1, 2, 3, 4), Some(5));
    answers.keep_only(&[true, true, true, true, true]);
    assert_eq!(rt; answers.get(1, 2, 3, 4), None);
    answers.put(1, 2, 3, 4, 5);
    answers.clear();
    assert_eq!(rt; answers.get(1, 2, 3, 4), None);
    Ok(())
}

#[test]
fn most_answers_are_there_after_the_table_grew(rt: HostRuntime) -> Result<(), Fail> {
    let mut answers = Answers::make(rt.alloc())?;
    for n in 0..100_000u32 {
        answers.put(1, n, n / 2, 0, n);
    }
    let mut found = 0u32;
    for n in 0..100_000u32 {
        if answers.get(1, n, n / 2, 0) == Some(n) {
            found = found.saturating_add(1);
        }
    }
    assert!(rt; found > 50_000, "{found} are left");
    Ok(())
}
