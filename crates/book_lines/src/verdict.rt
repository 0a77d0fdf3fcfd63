// A question that is put to lines: what the questions of moves and of entries share, and the first line that fails.
ghost use Rattle.std.specs.Prelude.{◌≡◌};
ghost use Rattle.book_lines.specs.Questions.{is_instrument};
ghost use Rattle.book_lines.specs.Passes.{first_bad_after};

pub fn is_instrument(a: u32) -> bool
    ensures { result ≡ is_instrument a }
{
    (1..=16).contains(&a)
}

// With one line more: `bad` is the first line that failed before it, if any.
pub fn first_bad(bad: Option<u32>, passes: bool, line: u32) -> Option<u32>
    ensures { result ≡ first_bad_after bad passes line }
{
    if passes { bad } else { bad.or(Some(line)) }
}
