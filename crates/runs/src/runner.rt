// One run, and two runs side by side.
ghost use Rattle.memory.specs.Meaning.{Cleared};
ghost use Rattle.runs.specs.Done.{OneRan, BothRan};

use crate::call::{Answer, Call, attempt};
use memory::Memory;

// Tries calls on a memory that was just configured, in order.
fn try_calls<M: Memory>(
    m: &mut M,
    calls: &[Call<M::Word>],
    answers: &mut [Answer<M::Word>],
) -> usize
    requires order { M.Memory.ordered m.old }
    requires clear { Cleared M.Word.Word.nought (M.Memory.meaning m.old) }
    ensures { OneRan M.Word.Word.nought M.Memory.ordered M.Memory.meaning
        (record {
          before = m.old;
          after = m.new;
          calls = calls.now;
          old = answers.old;
          new = answers.new;
          tried = result;
        }) }
{
    let tried = calls.len().min(answers.len());
    // By index: a proof knows nothing of the answers after a `zip` over their `iter_mut`.
    for (i, call) in calls[..tried].iter().enumerate() {
        answers[i] = attempt(m, call);
    }
    tried
}

/// Configures a memory and tries calls on it, in order, as many as `answers` has places for; says how many
/// were tried. Past their answers the buffer is as it was.
pub fn run<M: Memory>(m: &mut M, calls: &[Call<M::Word>], answers: &mut [Answer<M::Word>]) -> usize
    ensures { OneRan M.Word.Word.nought M.Memory.ordered M.Memory.meaning
        (record {
          before = m.old;
          after = m.new;
          calls = calls.now;
          old = answers.old;
          new = answers.new;
          tried = result;
        }) }
{
    m.configure();
    try_calls(m, calls, answers)
}

/// Two runs, each on a memory of its own. Where the memories have as many ports and addresses, and the
/// second calls are the first without the refused ones and with the reads and writes of each cycle in
/// some order, each call gets the same answer in both runs, and both memories end the same.
// Each loan by itself. A struct of a memory, its calls and the places for their answers was tried: no proof of two
// runs closed but where all their loans have one lifetime, which would ask more of callers.
pub fn run_both<M: Memory, N: Memory<Word = M::Word>>(
    first: &mut M,
    second: &mut N,
    calls: &[Call<M::Word>],
    others: &[Call<M::Word>],
    answers: &mut [Answer<M::Word>],
    again: &mut [Answer<M::Word>],
) -> (usize, usize)
    ensures { BothRan M.Word.Word.nought M.Memory.ordered M.Memory.meaning
        N.Memory.ordered N.Memory.meaning
        (record {
          before = first.old;
          after = first.new;
          calls = calls.now;
          old = answers.old;
          new = answers.new;
          tried = result.0;
        })
        (record {
          before = second.old;
          after = second.new;
          calls = others.now;
          old = again.old;
          new = again.new;
          tried = result.1;
        }) }
{
    (run(first, calls, answers), run(second, others, again))
}
