// A text line as words.
ghost use Rattle.std.specs.Prelude.{IfOk};
ghost use Rattle.words.specs.Lines.{Cut, texts};

use std::alloc::{AllocError, Global};

// The words of a line, which single spaces part.
pub fn words_of<'a>(heap: Global, line: &'a str) -> Result<Vec<&'a str>, AllocError>
    ensures { IfOk result (λ words. Cut line.now (texts words.items)) }
{
    line.split(' ').collect(heap)
}
