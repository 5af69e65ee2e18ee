use std::alloc::Global;

// The first of the texts of which something else is told than this.
fn other_than<'a, A: Copy + PartialEq, F: Fn(Global, &str) -> Option<A>>(
    alloc: Global,
    answer_of: &F,
    answer: A,
    texts: &[&'a str],
) -> Option<&'a str>
    requires { F.IsAlwaysCallable answer_of.now }
{
    for text in texts {
        if answer_of(alloc, text) != Some(answer) {
            return Some(*text);
        }
    }
    None
}

/// The first text of which something else is told than the answer that it is listed under; None where
/// there is no such text.
pub fn wrongly_told<'a, A: Copy + PartialEq, F: Fn(Global, &str) -> Option<A>>(
    alloc: Global,
    answer_of: F,
    lists: &[(A, &[&'a str])],
) -> Option<&'a str>
    requires { F.IsAlwaysCallable answer_of }
{
    for (answer, texts) in lists {
        let other = other_than(alloc, &answer_of, *answer, texts);
        if other.is_some() {
            return other;
        }
    }
    None
}
